ghost use Rattle.std.specs.Prelude.{◌≡◌, ◌<◌, ◌≤◌, All, vec_len, IfOk, IfErr, OnOk};
ghost use Rattle.hs_base.specs.Schedule.{time_of, Meets, HasNoSchedule};
ghost use Rattle.stn_distance.specs.Ranges.{IsInRange};
ghost use Rattle.hs_base.specs.Cycles.{IsNegativeCycle};
ghost use Rattle.stn_distance.specs.Broken.{IfCycle};
ghost use Rattle.stn_trail.specs.Moves.{KeepsPast};
ghost use Rattle.stn_trail.specs.Held.{added};
ghost use Rattle.stn_trail.specs.History.{parts_of};

use crate::Part;
use crate::part::Step;
use crate::times::Times;
use hs_base::{Bound, Memory};
use std::alloc::Global;
use stn_distance::{Broken, POINTS, solve};

/// The bounds that were added.
fn bounds_of(alloc: Global, steps: &[Step]) -> Result<Vec<Bound>, Memory>
    ensures { IfOk result (λ v. v.items ≡ added (parts_of steps.now)) }
{
    let mut bounds = Vec::new(alloc);
    for step in steps {
        match step.part {
            Part::Grown => {}
            Part::Added(bound) => bounds.push(bound)?,
        }
    }
    Ok(bounds)
}

/// Solves all bounds anew, for times that no raise from the times now can reach.
pub(crate) fn solve_anew(
    alloc: Global,
    points: u32,
    steps: &[Step],
    times: &mut Times,
) -> Result<(), Broken>
    requires few { (1 ≤ points) × (points ≤ POINTS) }
    requires range { All (IsInRange points) (added (parts_of steps.now)) }
    requires times { points ≤ vec_len times.old.ticks }
    ensures schedule { OnOk result (Meets (added (parts_of steps.now)) (time_of times.new.ticks.items)) }
    ensures cycle { IfErr result (λ e. IfCycle e (IsNegativeCycle (added (parts_of steps.now)))) }
    ensures none { IfErr result (λ e. IfCycle e (λ _. HasNoSchedule (added (parts_of steps.now)))) }
    ensures times { vec_len times.new.ticks ≡ vec_len times.old.ticks }
    ensures past { KeepsPast (vec_len times.old.moves) times.old.moves.items times.old.ticks.items times.new.moves.items times.new.ticks.items }
{
    let bounds = bounds_of(alloc, steps)?;
    let schedule = solve(alloc, points, &bounds)?;
    times.adopt(schedule.as_slice())?;
    Ok(())
}
