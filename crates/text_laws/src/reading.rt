// The laws of reading missions.
ghost use Rattle.std.specs.Prelude.{◌≡◌, ℕ, List, []};
ghost use Rattle.hs_texts.specs.declared.ast.Ast.{Ast};
ghost use Rattle.hs_texts.specs.declared.refusal.Refusal.{Refusal};
ghost use Rattle.hs_texts.specs.MissionText.{MissionText, RangeText, KindText, ChoiceText};
ghost use Rattle.hs_texts.specs.MissionSpelling.{Spells, IsReadRefusal};
ghost use Rattle.text_laws.specs.Reads.{Reads};
ghost use Rattle.text_laws.specs.MissionReading.{mission_at, range_at, kind_at, choice_at};

/// Missions are read from left to right: what is read is spelled, what is spelled is read, and
/// reading stops at the first piece with which no mission goes on.
pub fn missions_are_read()
    ensures { Reads MissionText mission_at [] }
{}

/// The same of ranges, kinds and choices.
pub fn clauses_are_read()
    ensures ranges { Reads RangeText range_at [] }
    ensures kinds { (v : ℕ) → Reads (KindText v) (kind_at v) [] }
    ensures choices { (v : ℕ) → Reads (ChoiceText v) (choice_at v) [] }
{}

/// A text spells one mission at most.
pub fn a_mission_text_spells_one_ast()
    ensures { (bytes : List ℕ) (a b : Ast) → Spells bytes a → Spells bytes b → a ≡ b }
{}

/// A text spells a mission, or has one refusal.
pub fn a_text_has_one_answer()
    ensures spelled { (bytes : List ℕ) (a : Ast) (r : Refusal) → Spells bytes a → IsReadRefusal bytes r → ⊥ }
    ensures refused { (bytes : List ℕ) (r s : Refusal) → IsReadRefusal bytes r → IsReadRefusal bytes s → r ≡ s }
{}
