ghost use Rattle.std.specs.Prelude.{◌≡◌, ◌≢◌, ◌≤◌, ◌<◌, ◌≤ℤ◌, neg_ℤ, [], ◌∷◌, ◌++◌, suc, take, drop, length, slice_get, Some, All, IfOk, MatchOption};
ghost use Rattle.hs_base.specs.declared.limits.TheConstants.{LAST};
ghost use Rattle.hs_base.specs.Schedule.{Schedule, Meets};
ghost use Rattle.stn_distance.specs.Chains.{IsForcedAs, IsWhy, against as against_spec};
ghost use Rattle.stn_distance.specs.Ranges.{IsInRange};

use crate::search::{POINTS, solve_from};
use crate::{Broken, Why};
use hs_base::{Bound, List, Memory};
use std::alloc::Global;

/// The bound that is broken exactly where this one holds.
fn against(bound: Bound) -> Bound
    requires { (neg_ℤ LAST ≤ℤ bound.most) × (bound.most ≤ℤ LAST) }
    ensures { result ≡ against_spec bound }
{
    Bound {
        from: bound.to,
        to: bound.from,
        most: -bound.most - 1,
    }
}

/// The bounds with one more.
fn with_added(alloc: Global, bounds: &[Bound], added: Bound) -> Result<Vec<Bound>, Memory>
    ensures { IfOk result (λ v. v.items ≡ bounds.now ++ added ∷ []) }
{
    let mut all = bounds.to_vec(alloc)?;
    all.push(added)?;
    Ok(all)
}

/// Where the bound first stands.
fn place_of(bounds: &[Bound], bound: Bound) -> Option<usize>
    ensures { MatchOption result (All (λ b. b ≢ bound) bounds.now) (λ i. (i < length bounds.now) × (slice_get bounds.now i ≡ Some bound)) }
{
    bounds.iter().position(|b| *b == bound)
}

/// The bounds of a cycle without the one at a place, from behind it on.
fn opened(alloc: Global, cycle: &[Bound], place: usize) -> Result<List<Bound>, Memory>
    requires { place < length cycle.now }
    ensures { IfOk result (λ chain. chain ≡ drop (suc place) cycle.now ++ take place cycle.now) }
{
    let mut chain = cycle[place + 1..].to_vec(alloc)?;
    chain.extend_from_slice(&cycle[..place])?;
    Ok(List::from_vec(chain))
}

/// Bounds of the list that force another bound, or a schedule that breaks it. A chain comes exactly
/// where every schedule of the bounds keeps the other.
pub fn path(alloc: Global, n: u32, bounds: &[Bound], bound: Bound) -> Result<Why, Memory>
    requires few { (1 ≤ n) × (n ≤ POINTS) }
    requires range { All (IsInRange n) bounds.now }
    requires bound { IsInRange n bound }
    requires apart { bound.from ≢ bound.to }
    requires some { (s : Schedule) × Meets bounds.now s }
    ensures why { IfOk result (IsWhy n bounds.now bound) }
    ensures forced { IfOk result (IsForcedAs bounds.now bound) }
{
    let added = against(bound);
    let all = with_added(alloc, bounds, added)?;
    let start = vec![in alloc; 0; n as usize]?;
    match solve_from(alloc, n, &all, start) {
        Ok(times) => Ok(Why::Free(times)),
        Err(Broken::Cycle(cycle)) => {
            // the bounds alone have a schedule, so the cycle has the added one
            let Some(place) = place_of(cycle.as_slice(), added) else {
                unreachable!()
            };
            Ok(Why::Chain(opened(alloc, cycle.as_slice(), place)?))
        }
        Err(Broken::Memory) => Err(Memory),
    }
}
