ghost use Rattle.std.specs.Prelude.{IfOk};
ghost use Rattle.hs_base.specs.Missions.{IsMission};

use crate::distances::rigid;
use edge_filter::{Reformed, keep, reform};
use hs_base::{Bound, Extension, Fault, Group, LAST, Member, Memory, Mission, Net, PointId};
use plan_check::{CheckedPlan, check};
use rigid_contract::contract;
use sample_missions::{camera, camera_extension};
use std::alloc::Global;
use std::test::Fail;
use stn_distance::Dist;

/// The bound between two points, by their numbers.
macro_rules! bound {
    ($from:expr, $to:expr, $most:expr) => {
        Bound {
            from: PointId($from),
            to: PointId($to),
            most: $most,
        }
    };
}

#[test]
fn leaders_have_the_edges(rt: HostRuntime) -> Result<(), Fail> {
    let dist = rigid(rt.alloc())?;
    let groups = contract(rt.alloc(), &dist)?;
    let edges = keep(rt.alloc(), &dist, &groups)?;
    let kept = [bound!(0, 2, LAST - 7), bound!(2, 0, 0)];
    assert!(rt; edges.as_slice() == kept.as_slice());
    Ok(())
}

/// The camera mission: its contract says no more than that it is one.
fn mission(alloc: Global) -> Result<Mission, Memory>
    ensures { IfOk result IsMission }
{
    camera(alloc)
}

/// Its plan.
fn extension(alloc: Global) -> Result<Extension, Memory> {
    camera_extension(alloc)
}

fn planned(alloc: Global) -> Result<CheckedPlan, Fault> {
    let base = CheckedPlan::none(alloc, mission(alloc)?)?;
    check(alloc, &base, extension(alloc)?)
}

/// The plan's network.
fn reformed(alloc: Global) -> Result<Reformed, Fault> {
    let plan = planned(alloc)?;
    Ok(reform(alloc, plan)?)
}

/// Whether Z leads the horizon, and each of the six ends of tokens stands alone.
fn are_camera_groups(groups: &[Group]) -> bool {
    let horizon = Member {
        point: PointId(1),
        offset: 100,
    };
    let alone = groups
        .iter()
        .filter(|group| group.members.is_empty())
        .count();
    match groups.first() {
        Some(first) => {
            groups.len() == 7 && alone == 6 && first.members.as_slice() == [horizon].as_slice()
        }
        None => false,
    }
}

/// Whether these are its edges: the points are Z, the horizon, the ends of the camera's three
/// tokens, and of the attitude's three.
fn are_camera_edges(edges: &[Bound]) -> bool {
    let kept = [
        bound!(0, 2, 40),
        bound!(0, 4, LAST),
        bound!(0, 5, 30),
        bound!(0, 7, LAST),
        bound!(2, 0, -20),
        bound!(2, 3, 5),
        bound!(2, 5, -10),
        bound!(2, 6, 0),
        bound!(3, 2, -3),
        bound!(4, 0, -101),
        bound!(5, 0, -1),
        bound!(5, 6, 12),
        bound!(6, 5, -10),
        bound!(7, 0, -101),
    ];
    edges == kept.as_slice()
}

fn is_camera_network(net: &Net) -> bool {
    are_camera_groups(net.groups.as_slice()) && are_camera_edges(net.edges.as_slice())
}

/// Whether distances to the horizon and from it are folded over Z, which it stands 100 after.
fn are_folded(dist: &Dist) -> bool {
    dist.points() == 8
        && dist.at(PointId(0), PointId(1)) == 100
        && dist.at(PointId(1), PointId(0)) == -100
        && dist.at(PointId(1), PointId(2)) == -60
        && dist.at(PointId(2), PointId(1)) == 80
}

fn reforms(alloc: Global) -> Result<bool, Fault> {
    let reformed = reformed(alloc)?;
    Ok(is_camera_network(reformed.net()) && are_folded(reformed.dist()))
}

#[test]
fn makes_the_camera_network(rt: HostRuntime) -> Result<(), Fail> {
    assert!(rt; matches!(reforms(rt.alloc()), Ok(true)));
    Ok(())
}
