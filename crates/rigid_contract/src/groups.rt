ghost use Rattle.std.specs.Prelude.{◌≡◌, ◌<◌, ◌≤◌, ◌++◌, [], ◌∷◌, cond, map, filter, All, IfOk, OnOk};
ghost use Rattle.hs_base.specs.Schedule.{numbers_from};
ghost use Rattle.hs_base.specs.Reduced.{leaders, group_of};
ghost use Rattle.stn_distance.specs.Distances.{weight};
ghost use Rattle.rigid_contract.specs.Among.{is_loose, leads_among, members_among, group_among, groups_among};

use crate::pairs::{is_member, is_rigid, lets_lead};
use hs_base::{Group, List, Member, Memory, PointId};
use std::alloc::Global;
use stn_distance::Dist;

/// The first `n` points.
#[tactic(auto, using(crate::proofs::AmongLemmas::range_more))]
fn all_points(alloc: Global, n: u32) -> Result<Vec<u32>, Memory>
    ensures { IfOk result (λ v. v.items ≡ numbers_from 0 n) }
{
    let mut points = Vec::with_capacity(alloc, n as usize)?;
    for point in 0..n {
        points.push(point)?;
    }
    Ok(points)
}

/// Takes a point, where it is wanted.
fn push_if(points: &mut Vec<u32>, wanted: bool, point: u32) -> Result<(), Memory>
    ensures { OnOk result (points.new.items ≡ points.old.items ++ cond wanted (point ∷ []) []) }
{
    if wanted {
        points.push(point)?;
    }
    Ok(())
}

/// Those of the points that do not stand at one distance from point 0.
fn loose_points(alloc: Global, dist: &Dist, points: &[u32]) -> Result<Vec<u32>, Memory>
    requires some { 1 ≤ dist.now.count }
    requires points { All (λ p. p < dist.now.count) points.now }
    ensures { IfOk result (λ v. v.items ≡ filter (is_loose (weight dist.now)) points.now) }
{
    let mut loose = Vec::new(alloc);
    for point in points {
        let wanted = !is_rigid(dist, 0, *point);
        push_if(&mut loose, wanted, *point)?;
    }
    Ok(loose)
}

/// Whether a point leads those of the points that stand in its group.
fn leads(dist: &Dist, points: &[u32], p: u32) -> bool
    requires p { p < dist.now.count }
    requires points { All (λ p. p < dist.now.count) points.now }
    ensures { result ≡ leads_among (weight dist.now) points.now p }
{
    for q in points {
        if !lets_lead(dist, p, *q) {
            return false;
        }
    }
    true
}

/// Takes a point at its offset, where it is wanted.
fn push_member_if(
    members: &mut Vec<Member>,
    wanted: bool,
    point: u32,
    offset: i64,
) -> Result<(), Memory>
    ensures { OnOk result (members.new.items ≡ members.old.items ++ cond wanted (record { point = record { 0 = point }; offset = offset } ∷ []) []) }
{
    if wanted {
        members.push(Member {
            point: PointId(point),
            offset,
        })?;
    }
    Ok(())
}

/// Those of the points that stand in the group of `p`, with their offsets from it.
fn members_of(alloc: Global, dist: &Dist, points: &[u32], p: u32) -> Result<Vec<Member>, Memory>
    requires p { p < dist.now.count }
    requires points { All (λ p. p < dist.now.count) points.now }
    ensures { IfOk result (λ v. v.items ≡ members_among (weight dist.now) points.now p) }
{
    let mut members = Vec::new(alloc);
    for q in points {
        let offset = dist.at(PointId(p), PointId(*q));
        let wanted = is_member(dist, p, *q);
        push_member_if(&mut members, wanted, *q, offset)?;
    }
    Ok(members)
}

/// The group of `p` among the points.
fn group_led(alloc: Global, dist: &Dist, points: &[u32], p: u32) -> Result<Group, Memory>
    requires p { p < dist.now.count }
    requires points { All (λ p. p < dist.now.count) points.now }
    ensures { IfOk result (λ g. g ≡ group_among (weight dist.now) points.now p) }
{
    let members = members_of(alloc, dist, points, p)?;
    Ok(Group {
        leader: PointId(p),
        members: List::from_vec(members),
    })
}

/// Takes the group of `p` among the points, where `p` leads it.
fn push_led(
    alloc: Global,
    dist: &Dist,
    points: &[u32],
    p: u32,
    groups: &mut Vec<Group>,
) -> Result<(), Memory>
    requires p { p < dist.now.count }
    requires points { All (λ p. p < dist.now.count) points.now }
    ensures { OnOk result (groups.new.items ≡ groups.old.items ++ cond (leads_among (weight dist.now) points.now p) (group_among (weight dist.now) points.now p ∷ []) []) }
{
    if leads(dist, points, p) {
        let group = group_led(alloc, dist, points, p)?;
        groups.push(group)?;
    }
    Ok(())
}

/// Takes the groups of the points.
#[tactic(auto, using(crate::proofs::AmongLemmas::groups_more))]
fn push_groups(
    alloc: Global,
    dist: &Dist,
    points: &[u32],
    groups: &mut Vec<Group>,
) -> Result<(), Memory>
    requires { All (λ p. p < dist.now.count) points.now }
    ensures { OnOk result (groups.new.items ≡ groups.old.items ++ groups_among (weight dist.now) points.now points.now) }
{
    for p in points {
        push_led(alloc, dist, points, *p, groups)?;
    }
    Ok(())
}

/// The rigid groups of a network, by leader: points at one distance from each other in every
/// schedule. The earliest point leads, of several the one with the least number; the others
/// stand at their distances from it.
///
/// Points rigid with point 0, as those with fixed times, are told apart first, so that its time
/// grows with all points, and with the square of the others.
pub fn contract(alloc: Global, dist: &Dist) -> Result<List<Group>, Memory>
    ensures { IfOk result (λ gs. gs ≡ map (group_of dist.now.count (weight dist.now)) (leaders dist.now.count (weight dist.now))) }
{
    let all = all_points(alloc, dist.points())?;
    let loose = loose_points(alloc, dist, &all)?;
    let mut groups = Vec::new(alloc);
    groups.push(group_led(alloc, dist, &all, 0)?)?;
    push_groups(alloc, dist, &loose, &mut groups)?;
    Ok(List::from_vec(groups))
}
