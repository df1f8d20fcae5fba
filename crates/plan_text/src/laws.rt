// The laws of reading plans.
ghost use Rattle.std.specs.Prelude.{◌≡◌, ℕ, ◌≤◌, List, [], length};
ghost use Rattle.hs_base.specs.declared.limits.TheConstants.{TEXT_BYTES};
ghost use Rattle.hs_base.specs.declared.mission.Mission.{Mission};
ghost use Rattle.hs_base.specs.declared.plan.Extension.{Extension};
ghost use Rattle.hs_texts.specs.declared.refusal.Refusal.{Refusal};
ghost use Rattle.hs_base.specs.Checked.{Checked};
ghost use Rattle.hs_texts.specs.PlanText.{plan_text};
ghost use Rattle.text_laws.specs.Reads.{Reads};
ghost use Rattle.text_laws.specs.WritablePlans.{IsWritablePlan};
ghost use Rattle.hs_texts.specs.PlanGrammar.{PlanGrammar};
ghost use Rattle.plan_text.specs.PlanReading.{plan_at};
ghost use Rattle.hs_texts.specs.PlanSpelling.{PlanSpells, IsPlanRefusal};

/// Plans are read from left to right: what is read is spelled, what is spelled is read, and
/// reading stops at the first piece with which no plan goes on.
pub fn plans_are_read()
    ensures { (m : Mission) → Reads (PlanGrammar m) (plan_at m) [] }
{}

/// A text spells one plan of a mission at most.
pub fn a_plan_text_spells_one_plan()
    ensures { (m : Mission) (bytes : List ℕ) (i : ℕ) (es fs : List Extension) → PlanSpells m bytes i es → PlanSpells m bytes i fs → es ≡ fs }
{}

/// A text spells a plan of a mission, or has one refusal.
pub fn a_plan_text_has_one_answer()
    ensures spelled { (m : Mission) (bytes : List ℕ) (i : ℕ) (es : List Extension) (r : Refusal) → PlanSpells m bytes i es → IsPlanRefusal m bytes i r → ⊥ }
    ensures refused { (m : Mission) (bytes : List ℕ) (i : ℕ) (r s : Refusal) → IsPlanRefusal m bytes i r → IsPlanRefusal m bytes i s → r ≡ s }
{}

/// The text of a plan spells that plan alone and has no refusal, unless it is longer than a text
/// may be.
pub fn plans_are_read_back()
    ensures spelled { (m : Mission) (es : List Extension) → IsWritablePlan m es → length (plan_text m es) ≤ TEXT_BYTES → PlanSpells m (plan_text m es) 0 es }
    ensures alone { (m : Mission) (es fs : List Extension) → IsWritablePlan m es → length (plan_text m es) ≤ TEXT_BYTES → PlanSpells m (plan_text m es) 0 fs → fs ≡ es }
    ensures accepted { (m : Mission) (es : List Extension) (r : Refusal) → IsWritablePlan m es → length (plan_text m es) ≤ TEXT_BYTES → IsPlanRefusal m (plan_text m es) 0 r → ⊥ }
{}

/// The names and numbers of a checked plan are such that texts can spell them.
pub fn checked_plans_are_writable()
    ensures { (m : Mission) (es : List Extension) → Checked m es → IsWritablePlan m es }
{}
