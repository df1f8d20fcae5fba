ghost use Rattle.std.specs.Prelude.{◌≡◌, ℕ, ◌<◌, ◌≤◌, ◌-ℤ◌, length, All, IfOk, IfErr};
ghost use Rattle.hs_base.specs.Schedule.{MeetsList, HasNoSchedule, time_of};
ghost use Rattle.stn_distance.specs.Ranges.{IsInRange, IsInSearch, IsStart, IsNear};
ghost use Rattle.stn_distance.specs.Causes.{Explained, IsAboveFloor, TurnSays};
ghost use Rattle.hs_base.specs.Cycles.{IsNegativeCycle};
ghost use Rattle.stn_distance.specs.Broken.{IfCycle};

use crate::Broken;
use crate::lowering::{Lowering, lower_all};
use crate::trace::trace;
use hs_base::{Bound, List};
use std::alloc::{AllocError, Global};

/// The most points of a network.
pub const POINTS: u32 = 131_072;

/// What a turn over all bounds, and a look for bounds that lead back to their point, found.
enum Turn {
    Settled,
    Lowered,
    Round(Vec<Bound>),
}

/// One turn over the bounds, and a look for a round where a point was lowered.
fn turn_over(
    alloc: Global,
    count: usize,
    bounds: &[Bound],
    backward: bool,
    times: &mut [i64],
    causes: &mut [usize],
) -> Result<Turn, AllocError>
    requires few { (1 ≤ count) × (count ≤ POINTS) }
    requires range { All (IsInSearch count) bounds.now }
    requires explained { Explained count bounds.now times.old causes.old }
    requires floor { IsAboveFloor count times.old }
    ensures { IfOk result (λ t. TurnSays count bounds.now times.old times.new causes.new t) }
{
    match lower_all(count, bounds, backward, times, causes) {
        Lowering::Settled => Ok(Turn::Settled),
        Lowering::Lowered(point) => match trace(alloc, count, bounds, causes, point)? {
            Some(round) => Ok(Turn::Round(round)),
            None => Ok(Turn::Lowered),
        },
        Lowering::TooLow(point) => match trace(alloc, count, bounds, causes, point)? {
            Some(round) => Ok(Turn::Round(round)),
            None => unreachable!(),
        },
    }
}

/// Moves all times so that the first point stands at 0.
fn from_origin(times: &mut [i64])
    requires few { (1 ≤ length times.old) × (length times.old ≤ POINTS) }
    requires floor { IsAboveFloor (length times.old) times.old }
    ensures { (v : ℕ) → v < length times.old → time_of times.new v ≡ time_of times.old v -ℤ time_of times.old 0 }
{
    let origin = times[0];
    for time in times.iter_mut() {
        *time -= origin;
    }
}

/// A schedule of `n` points, found from these times on, or bounds that no schedule keeps.
///
/// The search is that of Bellman (1958) and Ford (1956), with turns forward and backward after
/// Yen (1970), and a look for a cycle among the causes after each turn (Tarjan 1981).
pub fn solve_from(
    alloc: Global,
    n: u32,
    bounds: &[Bound],
    start: Vec<i64>,
) -> Result<List<i64>, Broken>
    requires few { (1 ≤ n) × (n ≤ POINTS) }
    requires range { All (IsInSearch n) bounds.now }
    requires start { IsStart n start.items }
    ensures schedule { IfOk result (MeetsList n bounds.now) }
    ensures near { IfOk result (IsNear n) }
    ensures cycle { IfErr result (λ e. IfCycle e (IsNegativeCycle bounds.now)) }
    ensures none { IfErr result (λ e. IfCycle e (λ _. HasNoSchedule bounds.now)) }
{
    let count = n as usize;
    let mut times = start;
    let mut causes = vec![in alloc; bounds.len(); count]?;
    let mut backward = false;
    'turns: loop {
        match turn_over(alloc, count, bounds, backward, &mut times, &mut causes)? {
            Turn::Settled => break,
            Turn::Lowered => backward = !backward,
            Turn::Round(round) => return Err(Broken::Cycle(List::from_vec(round))),
        }
    }
    from_origin(&mut times);
    Ok(List::from_vec(times))
}

/// A schedule of `n` points, in ticks, with point 0 at 0. A cycle comes exactly where the bounds
/// have none.
pub fn solve(alloc: Global, n: u32, bounds: &[Bound]) -> Result<List<i64>, Broken>
    requires few { (1 ≤ n) × (n ≤ POINTS) }
    requires range { All (IsInRange n) bounds.now }
    ensures schedule { IfOk result (MeetsList n bounds.now) }
    ensures cycle { IfErr result (λ e. IfCycle e (IsNegativeCycle bounds.now)) }
    ensures none { IfErr result (λ e. IfCycle e (λ _. HasNoSchedule bounds.now)) }
{
    let start = vec![in alloc; 0; n as usize]?;
    solve_from(alloc, n, bounds, start)
}
