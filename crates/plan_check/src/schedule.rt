ghost use Rattle.std.specs.Prelude.{◌≡◌, ◌+◌, ◌≤◌, [], ◌++◌, All, IfErr, IfOk, OnOk};
ghost use Rattle.hs_base.specs.Walks.{EachAfter};
ghost use Rattle.hs_base.specs.Missions.{IsMission};
ghost use Rattle.hs_base.specs.Checked.{joined, KeepsRules, Checked};
ghost use Rattle.stn_distance.specs.Ranges.{IsInRange};
ghost use Rattle.stn_distance.specs.Broken.{IfCycle};
ghost use Rattle.stn_trail.specs.Held.{points_of, bounds_of};
ghost use Rattle.hs_base.specs.Cycles.{IsNegativeCycle};
ghost use Rattle.plan_index.specs.Contents.{contents_of};
ghost use Rattle.plan_check.specs.Scheduling.{IsCycleFault};
ghost use Rattle.plan_check.specs.Walked.{IsTrailOf};

use hs_base::{Bound, Extension, Fault, Memory, Mission, Plan, PointId};
use plan_index::PlanIndex;
use std::alloc::Global;
use stn_distance::{Broken, POINTS};
use stn_trail::Trail;
use token_net::{bounds, new_bounds, points};

/// Adds so many points.
fn add_points(trail: &mut Trail, points: u32) -> Result<(), Memory>
    requires { points_of trail.old + points ≤ POINTS }
    ensures points { OnOk result (points_of trail.new ≡ points_of trail.old + points) }
    ensures bounds { OnOk result (bounds_of trail.new ≡ bounds_of trail.old) }
{
    for _ in 0..points {
        let _ = trail.grow()?;
    }
    Ok(())
}

/// Adds bounds, or names a negative cycle of them with those before them.
fn add_bounds(trail: &mut Trail, bounds: &[Bound]) -> Result<(), Broken>
    requires range { All (IsInRange (points_of trail.old)) bounds.now }
    ensures points { points_of trail.new ≡ points_of trail.old }
    ensures bounds { OnOk result (bounds_of trail.new ≡ bounds_of trail.old ++ bounds.now) }
    ensures cycle { IfErr result (λ e. IfCycle e (IsNegativeCycle (bounds_of trail.old ++ bounds.now))) }
{
    for bound in bounds {
        if let Err(broken) = trail.add(*bound) {
            return Err(broken);
        }
    }
    Ok(())
}

/// The trail of a plan's points and bounds.
pub(crate) fn trail_of(alloc: Global, mission: &Mission, plan: &Plan) -> Result<Trail, Memory>
    requires { Checked mission.now plan.now.extensions }
    ensures { IfOk result (IsTrailOf mission.now plan.now.extensions) }
{
    let made = bounds(alloc, mission, plan)?;
    let mut trail = Trail::begin(alloc, points(plan))?;
    match add_bounds(&mut trail, made.as_slice()) {
        Ok(()) => Ok(trail),
        Err(Broken::Cycle(_)) => unreachable!(),
        Err(Broken::Memory) => Err(Memory),
    }
}

/// Adds the points and the bounds of the plan's next extension, by the index of the plan with it,
/// where there is a schedule of all bounds.
pub(crate) fn check_schedule(
    alloc: Global,
    mission: &Mission,
    plan: &Plan,
    index: &PlanIndex,
    trail: &mut Trail,
    extension: &Extension,
) -> Result<(), Fault>
    requires mission { IsMission mission.now }
    requires rules { EachAfter (KeepsRules mission.now) [] (joined plan.now.extensions extension.now) }
    requires index { index.now ≡ contents_of (joined plan.now.extensions extension.now) }
    requires trail { IsTrailOf mission.now plan.now.extensions trail.old }
    ensures trail { OnOk result (IsTrailOf mission.now (joined plan.now.extensions extension.now) trail.new) }
    ensures checked { OnOk result (Checked mission.now (joined plan.now.extensions extension.now)) }
    ensures cycle { IfErr result (IsCycleFault mission.now (joined plan.now.extensions extension.now)) }
{
    let made = new_bounds(alloc, mission, index, extension)?;
    add_points(trail, extension.tokens.len() as u32 + 1)?;
    match add_bounds(trail, made.as_slice()) {
        Ok(()) => {
            // the times of the trail are a schedule
            let _ = trail.at(PointId(0));
            Ok(())
        }
        Err(Broken::Cycle(cycle)) => Err(Fault::Cycle(cycle)),
        Err(Broken::Memory) => Err(Fault::Memory),
    }
}
