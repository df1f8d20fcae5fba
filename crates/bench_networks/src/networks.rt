ghost use Rattle.std.specs.Prelude.{◌<◌, ◌≤◌, ◌≤ℤ◌, pos, All, IfOk};
ghost use Rattle.stn_distance.specs.Ranges.{IsInRange, StaysInTime};
ghost use Rattle.bench_networks.specs.Ranges.{HasRanges};

use hs_base::{Bound, LAST, PointId};
use std::alloc::{AllocError, Global};

/// The next of a row of random numbers (Knuth, MMIX).
fn next(state: u64) -> u64 {
    state
        .wrapping_mul(6364136223846793005)
        .wrapping_add(1442695040888963407)
}

/// A random number below `n`.
fn below(state: u64, n: u32) -> u32
    requires { 1 ≤ n }
    ensures { result < n }
{
    ((state >> 33) % u64::from(n)) as u32
}

/// A time for each point, in ticks.
fn time_of(point: u32) -> i64
    ensures low { pos 0 ≤ℤ result }
    ensures high { result ≤ℤ pos 1000003 }
{
    if point == 0 {
        return 0;
    }
    let scaled = (u64::from(point) * 7919) % 1_000_003;
    scaled as i64
}

/// A bound that these times keep with `slack` ticks to spare.
fn spared(n: u32, from: u32, to: u32, slack: u32) -> Bound
    requires from { from < n }
    requires to { to < n }
    requires slack { slack ≤ 1000 }
    ensures { IsInRange n result }
{
    Bound {
        from: PointId(from),
        to: PointId(to),
        most: time_of(to) - time_of(from) + i64::from(slack),
    }
}

/// The bounds that have each point in 0 to `LAST` after point 0.
fn ranges(alloc: Global, n: u32) -> Result<Vec<Bound>, AllocError>
    requires { 1 ≤ n }
    ensures range { IfOk result (λ v. All (IsInRange n) v.items) }
    ensures ranges { IfOk result (λ v. HasRanges n v.items) }
{
    let mut bounds = Vec::new(alloc);
    for point in 1..n {
        bounds.push(Bound {
            from: PointId(point),
            to: PointId(0),
            most: 0,
        })?;
        bounds.push(Bound {
            from: PointId(0),
            to: PointId(point),
            most: LAST,
        })?;
    }
    Ok(bounds)
}

/// A network of `n` points that has a schedule: besides the ranges, for each point a window of at
/// most 2,000 ticks between two random points.
pub(crate) fn network(alloc: Global, n: u32) -> Result<Vec<Bound>, AllocError>
    requires { 1 ≤ n }
    ensures range { IfOk result (λ v. All (IsInRange n) v.items) }
    ensures stays { IfOk result (λ v. StaysInTime n v.items) }
{
    let mut bounds = ranges(alloc, n)?;
    let mut state = 1;
    for _ in 0..n {
        state = next(state);
        let from = below(state, n);
        state = next(state);
        let to = below(state, n);
        state = next(state);
        let slack = below(state, 1_000);
        bounds.push(spared(n, from, to, slack))?;
        bounds.push(spared(n, to, from, slack))?;
    }
    Ok(bounds)
}
