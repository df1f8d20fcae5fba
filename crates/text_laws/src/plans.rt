// The laws of writing plans.
ghost use Rattle.std.specs.Prelude.{◌≤◌, List, length};
ghost use Rattle.hs_base.specs.declared.limits.TheConstants.{TEXT_BYTES};
ghost use Rattle.hs_base.specs.declared.mission.Mission.{Mission};
ghost use Rattle.hs_base.specs.declared.plan.Extension.{Extension};
ghost use Rattle.hs_texts.specs.PlanText.{plan_text};
ghost use Rattle.hs_texts.specs.PlanSpelling.{PlanSpells};
ghost use Rattle.text_laws.specs.WritablePlans.{IsWritablePlan};

/// The text of a plan spells the plan, unless it is longer than a text may be.
pub fn plan_texts_spell_their_plans()
    ensures { (m : Mission) (es : List Extension) → IsWritablePlan m es → length (plan_text m es) ≤ TEXT_BYTES → PlanSpells m (plan_text m es) 0 es }
{}
