ghost use Rattle.std.specs.Prelude.{◌≢◌, All, IfOk};
ghost use Rattle.hs_base.specs.Points.{count};
ghost use Rattle.hs_base.specs.Bounds.{bounds_of};
ghost use Rattle.hs_base.specs.Schedule.{IsBelow};
ghost use Rattle.plan_check.specs.Reasons.{IfChain};
ghost use Rattle.stn_distance.specs.Chains.{IsForcedAs, IsWhy};
ghost use Rattle.stn_distance.specs.Ranges.{IsInRange};

use crate::CheckedPlan;
use hs_base::{Bound, Memory};
use std::alloc::Global;
use stn_distance::{Why, path};
use token_net::{bounds, points};

/// Bounds of the plan that force another bound between two of its points, or a schedule of the plan
/// that breaks it. Its points are different, and it is within `LAST` ticks of 0.
pub fn reason(alloc: Global, plan: &CheckedPlan, bound: Bound) -> Result<Why, Memory>
    requires bound { IsInRange (count plan.now.plan.extensions) bound }
    requires apart { bound.from ≢ bound.to }
    ensures why { IfOk result (IsWhy (count plan.now.plan.extensions) (bounds_of plan.now.mission plan.now.plan.extensions) bound) }
    ensures forced { IfOk result (IsForcedAs (bounds_of plan.now.mission plan.now.plan.extensions) bound) }
    ensures points { IfOk result (λ why. IfChain why (All (IsBelow (count plan.now.plan.extensions)))) }
{
    let listed = plan.plan();
    let made = bounds(alloc, plan.mission(), listed)?;
    path(alloc, points(listed), made.as_slice(), bound)
}
