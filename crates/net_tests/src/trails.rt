ghost use Rattle.std.specs.Prelude.{◌≡◌, ◌<◌, ◌≤ℤ◌, neg_ℤ};
ghost use Rattle.hs_base.specs.declared.limits.TheConstants.{LAST};
ghost use Rattle.stn_distance.specs.Ranges.{IsInRange};
ghost use Rattle.stn_trail.specs.Held.{points_of};

use crate::chain::bound;
use hs_base::{Bound, Memory, PointId};
use std::alloc::Global;
use std::test::Fail;
use stn_distance::Broken;
use stn_trail::Trail;

/// Whether times rise with bounds, and fall back when these are taken back.
fn rises(alloc: Global) -> Result<bool, Broken> {
    let mut trail = Trail::begin(alloc, 3)?;
    trail.add(bound(1, 0, -10))?;
    trail.add(bound(2, 1, -5))?;
    let first = trail.at(PointId(2));
    let mark = trail.mark();
    let point = trail.grow()?;
    trail.add(bound(3, 2, -7))?;
    trail.add(bound(1, 0, -30))?;
    let last = trail.at(point);
    trail.undo(mark);
    Ok(first == 15 && last == 42 && trail.at(PointId(2)) == 15)
}

#[test]
fn times_rise_and_fall_back(rt: HostRuntime) -> Result<(), Fail> {
    assert!(rt; rises(rt.alloc())?);
    Ok(())
}

/// Whether the trail takes a bound between two of its points.
fn takes(trail: &mut Trail, from: u32, to: u32, most: i64) -> bool
    requires from { from < points_of trail.old }
    requires to { to < points_of trail.old }
    requires low { neg_ℤ LAST ≤ℤ most }
    requires high { most ≤ℤ LAST }
    ensures { points_of trail.new ≡ points_of trail.old }
{
    trail.add(bound(from, to, most)).is_ok()
}

/// Whether the trail refuses a bound with that cycle.
fn refuses(trail: &mut Trail, refused: Bound, cycle: &[Bound]) -> bool
    requires { IsInRange (points_of trail.old) refused }
    ensures { points_of trail.new ≡ points_of trail.old }
{
    match trail.add(refused) {
        Err(Broken::Cycle(found)) => found.as_slice() == cycle,
        _ => false,
    }
}

/// Whether bounds are refused that leave a point too early or too late. The end of the second hangs
/// on its start, which it would raise past its latest time.
fn refuses_two(alloc: Global) -> Result<bool, Memory> {
    let mut trail = Trail::begin(alloc, 3)?;
    let first = takes(&mut trail, 1, 0, -10);
    let second = takes(&mut trail, 0, 1, 11);
    let third = takes(&mut trail, 2, 1, -5);
    let late = [bound(0, 1, 11), bound(1, 0, -25)];
    let too_late = refuses(&mut trail, bound(1, 0, -25), &late);
    let near = [bound(1, 2, 3), bound(2, 1, -5)];
    let too_early = refuses(&mut trail, bound(1, 2, 3), &near);
    let taken = first && second && third;
    Ok(taken && too_late && too_early && trail.at(PointId(2)) == 15)
}

#[test]
fn a_refused_bound_comes_with_its_cycle(rt: HostRuntime) -> Result<(), Fail> {
    assert!(rt; refuses_two(rt.alloc())?);
    Ok(())
}

#[test]
fn a_point_may_stand_before_the_origin(rt: HostRuntime) -> Result<(), Fail> {
    let mut trail = Trail::begin(rt.alloc(), 2)?;
    assert!(rt; takes(&mut trail, 0, 1, -5));
    assert!(rt; trail.at(PointId(1)) == -5);
    Ok(())
}
