ghost use Rattle.std.specs.Prelude.{◌≡◌, IfOk};

use hs_base::{Bound, LAST, PointId};
use std::alloc::Global;
use std::test::Fail;
use stn_distance::{Broken, Dist, Why, close, path, solve};

/// The bound between two points, by their numbers.
macro_rules! bound {
    ($from:expr, $to:expr, $most:expr) => {
        Bound {
            from: PointId($from),
            to: PointId($to),
            most: $most,
        }
    };
}

#[test]
fn solves(rt: HostRuntime) -> Result<(), Fail> {
    let bounds = [bound!(0, 1, 4), bound!(1, 0, -4)];
    let schedule = solve(rt.alloc(), 2, &bounds)?;
    assert!(rt; schedule.as_slice() == [0, 4].as_slice());
    Ok(())
}

/// Whether the cycle is of these two bounds.
fn is_of(cycle: &[Bound], one: Bound, other: Bound) -> bool {
    cycle == [one, other].as_slice() || cycle == [other, one].as_slice()
}

/// Whether point 1, which stands 4 after Z, can't stand at most 3 after it.
fn has_cycle(alloc: Global) -> bool {
    let bounds = [bound!(0, 1, 4), bound!(1, 0, -4), bound!(0, 1, 3)];
    match solve(alloc, 2, &bounds) {
        Err(Broken::Cycle(cycle)) => is_of(cycle.as_slice(), bounds[1], bounds[2]),
        _ => false,
    }
}

#[test]
fn finds_a_cycle(rt: HostRuntime) -> Result<(), Fail> {
    assert!(rt; has_cycle(rt.alloc()));
    Ok(())
}

/// Whether no chain forces point 1, which stands 4 after Z, to stand at most 3 after it.
fn is_free(alloc: Global) -> bool {
    let bounds = [bound!(0, 1, 4), bound!(1, 0, -4)];
    // the bounds have a schedule
    if solve(alloc, 2, &bounds).is_err() {
        return false;
    }
    match path(alloc, 2, &bounds, bound!(0, 1, 3)) {
        Ok(Why::Free(times)) => times.as_slice() == [0, 4].as_slice(),
        _ => false,
    }
}

#[test]
fn finds_a_schedule_that_breaks_a_bound(rt: HostRuntime) -> Result<(), Fail> {
    assert!(rt; is_free(rt.alloc()));
    Ok(())
}

/// The distances of Z and two points, of which 1 stands 7 after 2.
pub(crate) fn rigid(alloc: Global) -> Result<Dist, Broken>
    ensures { IfOk result (λ dist. dist.count ≡ 3) }
{
    let bounds = [
        bound!(1, 0, 0),
        bound!(0, 1, LAST),
        bound!(2, 0, 0),
        bound!(0, 2, LAST),
        bound!(2, 1, 7),
        bound!(1, 2, -7),
    ];
    close(alloc, 3, &bounds)
}

/// Whether these are their distances.
fn are_rigid(dist: &Dist) -> bool
    requires { dist.now.count ≡ 3 }
{
    dist.at(PointId(2), PointId(1)) == 7
        && dist.at(PointId(1), PointId(2)) == -7
        && dist.at(PointId(1), PointId(0)) == -7
        && dist.at(PointId(0), PointId(2)) == LAST - 7
        && dist.bounds().len() == 6
}

#[test]
fn closes_three_points(rt: HostRuntime) -> Result<(), Fail> {
    let dist = rigid(rt.alloc())?;
    assert!(rt; are_rigid(&dist));
    Ok(())
}
