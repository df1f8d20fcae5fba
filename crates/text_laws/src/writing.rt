// The laws of writing missions.
ghost use Rattle.std.specs.Prelude.{◌≡◌, ℕ, ◌≤◌, List, length};
ghost use Rattle.hs_texts.specs.declared.ast.Ast.{Ast};
ghost use Rattle.hs_base.specs.declared.limits.TheConstants.{TEXT_BYTES};
ghost use Rattle.hs_texts.specs.CanonicalText.{canonical};
ghost use Rattle.hs_texts.specs.MissionSpelling.{Spells};
ghost use Rattle.text_laws.specs.Writable.{IsWritable};

/// A mission that a text spells is writable, and a writable one is spelled by its canonical text,
/// unless that is longer than a text may be.
pub fn writable_missions_are_spelled()
    ensures spelled { (bytes : List ℕ) (a : Ast) → Spells bytes a → IsWritable a }
    ensures written { (a : Ast) → IsWritable a → length (canonical a) ≤ TEXT_BYTES → Spells (canonical a) a }
{}

/// What is printed is read back: where some text spells a mission, its canonical text spells it, and
/// no other, unless it is longer than a text may be.
pub fn canonical_texts_are_read_back()
    ensures spelled { (bytes : List ℕ) (a : Ast) → Spells bytes a → length (canonical a) ≤ TEXT_BYTES → Spells (canonical a) a }
    ensures alone { (bytes : List ℕ) (a b : Ast) → Spells bytes a → Spells (canonical a) b → b ≡ a }
{}
