ghost use Rattle.std.specs.Prelude.{◌≡◌, ◌<◌, ◌≤◌, All};
ghost use Rattle.stn_distance.specs.Ranges.{IsInSearch};
ghost use Rattle.stn_distance.specs.Causes.{Explained, IsAboveFloor, TurnFinds, place};

use hs_base::{Bound, LAST};

/// How far from 0, in ticks, a search may start.
pub(crate) const REACH: i64 = 4_000_000_000_000;

/// How far, in ticks, one bound can take a time below another.
const STEP: i64 = LAST + 1;

/// What a turn over all bounds found.
pub(crate) enum Lowering {
    /// Each bound is kept.
    Settled,
    /// This point was lowered.
    Lowered(usize),
    /// This point was lowered further than a way that meets no point twice reaches.
    TooLow(usize),
}

/// The place of step `step` of a turn over `count` bounds, from the first or from the last on.
fn place_of(backward: bool, step: usize, count: usize) -> usize
    requires { step < count }
    ensures within { result < count }
    ensures place { result ≡ place backward count step }
{
    if backward { count - 1 - step } else { step }
}

/// Lowers each point that a bound wants lower, in one turn over the bounds, and notes the bound.
pub(crate) fn lower_all(
    count: usize,
    bounds: &[Bound],
    backward: bool,
    times: &mut [i64],
    causes: &mut [usize],
) -> Lowering
    requires few { (1 ≤ count) × (count ≤ 131072) }
    requires range { All (IsInSearch count) bounds.now }
    requires explained { Explained count bounds.now times.old causes.old }
    requires floor { IsAboveFloor count times.old }
    ensures explained { Explained count bounds.now times.new causes.new }
    ensures found { TurnFinds count bounds.now times.old times.new result }
{
    let floor = -REACH - (count as i64 - 1) * STEP;
    let mut lowered = None;
    for step in 0..bounds.len() {
        let i = place_of(backward, step, bounds.len());
        let bound = bounds[i];
        let from = bound.from.0 as usize;
        let to = bound.to.0 as usize;
        let reached = times[from] + bound.most;
        if reached < times[to] {
            times[to] = reached;
            causes[to] = i;
            if reached < floor {
                return Lowering::TooLow(to);
            }
            lowered = Some(to);
        }
    }
    match lowered {
        None => Lowering::Settled,
        Some(point) => Lowering::Lowered(point),
    }
}
