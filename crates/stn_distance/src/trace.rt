ghost use Rattle.std.specs.Prelude.{◌≡◌, ◌<◌, ◌≤◌, length, All, IfOk, IfSome, IfNone, reverse, drop};
ghost use Rattle.stn_distance.specs.Ranges.{IsInSearch};
ghost use Rattle.stn_distance.specs.Causes.{AreEnds, IsRound, RootedAt};

use hs_base::Bound;
use std::alloc::{AllocError, Global};

/// The bounds from the given place on, the last first.
fn turned(alloc: Global, path: &[Bound], place: usize) -> Result<Vec<Bound>, AllocError>
    requires { place ≤ length path.now }
    ensures { IfOk result (λ v. v.items ≡ reverse (drop place path.now)) }
{
    path[place..].iter().rev().copied().collect(alloc)
}

/// Follows the causes back from the start, to bounds that lead back to their point, or to a point
/// with no cause.
pub(crate) fn trace(
    alloc: Global,
    count: usize,
    bounds: &[Bound],
    causes: &[usize],
    start: usize,
) -> Result<Option<Vec<Bound>>, AllocError>
    requires range { All (IsInSearch count) bounds.now }
    requires ends { AreEnds count bounds.now causes.now }
    requires start { start < count }
    ensures round { IfOk result (λ o. IfSome o (λ c. IsRound count bounds.now causes.now c.items)) }
    ensures rooted { IfOk result (λ o. IfNone o (RootedAt count bounds.now causes.now start)) }
{
    let mut places = vec![in alloc; count; count]?;
    let mut path: Vec<Bound> = Vec::new(alloc);
    let mut at = start;
    'back: while places[at] == count {
        let cause = causes[at];
        if cause >= bounds.len() {
            return Ok(None);
        }
        places[at] = path.len();
        let bound = bounds[cause];
        path.push(bound)?;
        at = bound.from.0 as usize;
    }
    let round = turned(alloc, &path, places[at])?;
    Ok(Some(round))
}
