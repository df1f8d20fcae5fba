ghost use Rattle.std.specs.Prelude.{◌≡◌, ◌↔◌, length, IfOk, IsTrue};
ghost use Rattle.dispatcher.specs.State.{IsOpen};

use crate::chain::{bound, net};
use dispatcher::Dispatch;
use hs_base::{Bound, List, Memory, PointId, Time};
use std::alloc::Global;
use std::test::Fail;

/// Only the last point is observed.
fn flags(alloc: Global) -> Result<List<bool>, Memory>
    ensures { IfOk result (λ flags. length flags ≡ 4) }
{
    let flags = [false, false, false, true];
    Ok(List::from_vec(Vec::from_slice(alloc, &flags)?))
}

/// The small network's dispatch from 0 on.
fn begin(alloc: Global) -> Result<Dispatch, Memory> {
    let origin = Time {
        point: PointId(0),
        at: 0,
    };
    Dispatch::begin(alloc, net(alloc)?, flags(alloc)?, &[origin], 0)
}

fn is_open(dispatch: &Dispatch, p: PointId) -> bool
    ensures { IsTrue result ↔ IsOpen dispatch.now p.0 }
{
    (p.0 as usize) < dispatch.points() && dispatch.time(p).is_none()
}

/// The bound that bars an open point.
fn bar(dispatch: &mut Dispatch, p: PointId) -> Option<Bound> {
    if !is_open(dispatch, p) {
        return None;
    }
    dispatch.may_fire(p).err()
}

fn tied(dispatch: &Dispatch, p: PointId) -> Option<PointId> {
    if !is_open(dispatch, p) {
        return None;
    }
    dispatch.tied(p)
}

/// Executes an open point, where it may be.
fn fire(dispatch: &mut Dispatch, p: PointId) -> bool {
    if !is_open(dispatch, p) {
        return false;
    }
    if dispatch.may_fire(p).is_err() {
        return false;
    }
    dispatch.set(p);
    true
}

/// Takes a tick before an open point, where one may be taken.
fn tick(dispatch: &mut Dispatch, before: PointId) -> bool {
    if !is_open(dispatch, before) {
        return false;
    }
    if !dispatch.may_tick() {
        return false;
    }
    dispatch.advance();
    true
}

/// Whether point 1 is executed at 1, and point 2 is held by it at 2.
fn fires_the_first(dispatch: &mut Dispatch) -> bool {
    let barred = bar(dispatch, PointId(1)) == Some(bound(1, 0, -1));
    let fired = tick(dispatch, PointId(1)) && fire(dispatch, PointId(1));
    let held = tick(dispatch, PointId(2)) && bar(dispatch, PointId(2)) == Some(bound(2, 1, -2));
    barred && fired && held && dispatch.now() == 2
}

/// Whether the observed point is waited for at 4, and point 2 is due with it.
fn fires_the_last(dispatch: &mut Dispatch) -> bool {
    let tied = tied(dispatch, PointId(2)) == Some(PointId(3));
    let gone_on = tick(dispatch, PointId(2)) && tick(dispatch, PointId(2));
    let none = !dispatch.may_tick() && dispatch.must_fire().is_none();
    let late = dispatch.late() == Some(bound(1, 3, 3));
    let fired = fire(dispatch, PointId(3));
    let due = dispatch.must_fire() == Some(PointId(2));
    tied && gone_on && none && late && fired && due && fire(dispatch, PointId(2))
}

fn flies(alloc: Global) -> Result<bool, Memory> {
    let mut dispatch = begin(alloc)?;
    Ok(fires_the_first(&mut dispatch) && fires_the_last(&mut dispatch))
}

#[test]
fn dispatches(rt: HostRuntime) -> Result<(), Fail> {
    assert!(rt; matches!(flies(rt.alloc()), Ok(true)));
    Ok(())
}
