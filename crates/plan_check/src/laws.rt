ghost use Rattle.std.specs.Prelude.{◌≡◌, List, [], ◌∷◌, ◌++◌, length};
ghost use Rattle.hs_base.specs.declared.plan.Extension.{Extension};
ghost use Rattle.hs_base.specs.Schedule.{Schedule};
ghost use Rattle.hs_base.specs.Bounds.{IsScheduleOf};
ghost use Rattle.hs_base.specs.Timelines.{Legal, timelines};
ghost use Rattle.hs_base.specs.Checked.{Checked};

use crate::CheckedPlan;

/// Each schedule of a checked plan is one of the plan without its last extension, which is a
/// checked plan too.
pub fn schedules_of_a_checked_plan_restrict(plan: &CheckedPlan)
    ensures restricts { (es : List Extension) (e : Extension) (s : Schedule) → plan.now.plan.extensions ≡ es ++ e ∷ [] → IsScheduleOf plan.now.mission plan.now.plan.extensions s → IsScheduleOf plan.now.mission es s }
    ensures checked { (es : List Extension) (e : Extension) → plan.now.plan.extensions ≡ es ++ e ∷ [] → Checked plan.now.mission es }
{
    let _ = plan.plan();
}

/// Each schedule of a checked plan makes legal timelines up to the plan's last horizon.
pub fn schedules_of_a_checked_plan_make_legal_timelines(plan: &CheckedPlan)
    ensures { (s : Schedule) → (plan.now.plan.extensions ≡ [] → ⊥) → IsScheduleOf plan.now.mission plan.now.plan.extensions s → Legal plan.now.mission (length plan.now.plan.extensions) (timelines plan.now.mission plan.now.plan.extensions s) }
{
    let _ = plan.plan();
}
