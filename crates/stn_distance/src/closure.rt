ghost use Rattle.std.specs.Prelude.{[], ◌+◌, ◌≤◌, length, All, IfOk, IfErr};
ghost use Rattle.hs_base.specs.Schedule.{HasNoSchedule, MeetsList};
ghost use Rattle.stn_distance.specs.Ranges.{IsInRange, StaysInTime, IsFixed};
ghost use Rattle.hs_base.specs.Cycles.{IsNegativeCycle};
ghost use Rattle.stn_distance.specs.Broken.{IfCycle};
ghost use Rattle.stn_distance.specs.Distances.{IsDistOf};

use crate::folding::{fold, folding_of, times_of_rows};
use crate::nearest::by_start;
use crate::rows::rows_of;
use crate::search::{POINTS, solve};
use crate::{Broken, Dist};
use hs_base::{Bound, Memory, Time};
use std::alloc::Global;

/// The most points of a network whose times are not fixed, point 0 counted.
pub const ROWS: u32 = 2_048;

/// The distances of bounds that have this schedule.
fn dist_of(
    alloc: Global,
    n: u32,
    fixed: &[Time],
    bounds: &[Bound],
    schedule: &[i64],
) -> Result<Dist, Memory>
    requires few { (1 ≤ n) × (n ≤ POINTS) }
    requires range { All (IsInRange n) bounds.now }
    requires stays { StaysInTime n bounds.now }
    requires fixed { All (IsFixed n bounds.now) fixed.now }
    requires schedule { MeetsList n bounds.now schedule.now }
    ensures { IfOk result (IsDistOf n bounds.now) }
{
    let folding = folding_of(alloc, n, fixed)?;
    let folded = fold(alloc, n, bounds, &folding)?;
    let sorted = by_start(alloc, &folded)?;
    let potentials = times_of_rows(alloc, &folding.points, schedule)?;
    let rows = rows_of(alloc, folding.points.len() as u32, &sorted, &potentials)?;
    let bounds = Vec::from_slice(alloc, bounds)?;
    Ok(Dist {
        bounds,
        places: folding.places,
        offsets: folding.offsets,
        rows,
    })
}

/// The distances of a network in which times of points are fixed, or bounds that no schedule
/// keeps. A fixed point takes no row of the distances; only those of `fixed` are found whose
/// points rise.
pub fn close_fixed(alloc: Global, n: u32, fixed: &[Time], bounds: &[Bound]) -> Result<Dist, Broken>
    requires few { (1 ≤ n) × (n ≤ POINTS) }
    requires rows { n ≤ length fixed.now + ROWS }
    requires range { All (IsInRange n) bounds.now }
    requires stays { StaysInTime n bounds.now }
    requires fixed { All (IsFixed n bounds.now) fixed.now }
    ensures distances { IfOk result (IsDistOf n bounds.now) }
    ensures cycle { IfErr result (λ e. IfCycle e (IsNegativeCycle bounds.now)) }
    ensures none { IfErr result (λ e. IfCycle e (λ _. HasNoSchedule bounds.now)) }
{
    let schedule = solve(alloc, n, bounds)?;
    let dist = dist_of(alloc, n, fixed, bounds, schedule.as_slice())?;
    Ok(dist)
}

/// The distances of a network, or bounds that no schedule keeps. A cycle comes exactly where the
/// bounds have no schedule.
pub fn close(alloc: Global, n: u32, bounds: &[Bound]) -> Result<Dist, Broken>
    requires few { (1 ≤ n) × (n ≤ ROWS) }
    requires range { All (IsInRange n) bounds.now }
    requires stays { StaysInTime n bounds.now }
    ensures distances { IfOk result (IsDistOf n bounds.now) }
    ensures cycle { IfErr result (λ e. IfCycle e (IsNegativeCycle bounds.now)) }
    ensures none { IfErr result (λ e. IfCycle e (λ _. HasNoSchedule bounds.now)) }
{
    close_fixed(alloc, n, &[], bounds)
}
