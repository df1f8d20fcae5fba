ghost use Rattle.std.specs.Prelude.{◌≡◌, ◌≢◌, ◌<◌, ℕ, ℤ, All, IfOk, MatchOption, None, OnOk, length, replicate, slice_index_or};
ghost use Rattle.hs_base.specs.declared.net.Group.{Group};
ghost use Rattle.hs_base.specs.Network.{spread};
ghost use Rattle.hs_base.specs.Reduced.{IsReducedOf};
ghost use Rattle.hs_base.specs.Dispatch.{stands, time_by, group_time, IsReached};
ghost use Rattle.local_propagate.specs.Windows.{AreWindowsOf, times_of, time_of};
ghost use Rattle.dispatcher.specs.State.{times_in};
ghost use Rattle.dispatcher.specs.Places.{ArePlaces, IsNearLeader};
ghost use Rattle.dispatcher.specs.Index.{AreKnown, AreSetBy, AreTimes, IsTold, Knows, numbers_of};

use crate::places::Place;
use hs_base::{Group, Member, Memory, Net, PointId};
use local_propagate::Windows;
use std::alloc::Global;

/// The time of a leader, and the executed point that gives it.
#[derive(Clone, Copy, Debug)]
struct Told {
    at: i64,
    by: PointId,
}

/// The leader's time by the first executed one of some points of its group.
fn told_by_members(members: &[Member], times: &[Option<i64>]) -> Option<Told>
    requires near { All (IsNearLeader (length times.now)) members.now }
    requires times { AreTimes times.now }
    ensures { MatchOption result (time_by (times_in times.now) members.now ≡ None) (λ t. IsTold times.now members.now t.at t.by.0) }
{
    for member in members {
        if let Some(at) = times[member.point.0 as usize] {
            return Some(Told {
                at: at - member.offset,
                by: member.point,
            });
        }
    }
    None
}

/// The time of a group's leader, where a point of the group is executed.
fn told_by_group(group: &Group, times: &[Option<i64>]) -> Option<Told>
    requires near { All (IsNearLeader (length times.now)) (stands group.now) }
    requires times { AreTimes times.now }
    ensures { MatchOption result (group_time (times_in times.now) group.now ≡ None) (λ t. IsTold times.now (stands group.now) t.at t.by.0) }
{
    match times[group.leader.0 as usize] {
        Some(at) => Some(Told {
            at,
            by: group.leader,
        }),
        None => told_by_members(group.members.as_slice(), times),
    }
}

/// Sets the group of that number by its executed points, and tells one of these. The leader stands
/// for a group that isn't set.
fn set_group(
    net: &Net,
    i: usize,
    places: &[Place],
    times: &[Option<i64>],
    windows: &mut Windows,
) -> PointId
    requires reduced { IsReducedOf (length times.now) (spread net.now) net.now }
    requires reached { (n : ℤ) × IsReached (length times.now) net.now (times_in times.now) n }
    requires places { ArePlaces (length times.now) net.now places.now }
    requires windows { AreWindowsOf net.now windows.old }
    requires group { i < length net.now.groups }
    requires unset { time_of windows.old i ≡ None }
    ensures windows { AreWindowsOf net.now windows.new }
    ensures own { (g : Group) → time_of windows.new i ≡ group_time (times_in times.now) (slice_index_or net.now.groups i g) }
    ensures others { (j : ℕ) → j ≢ i → time_of windows.new j ≡ time_of windows.old j }
    ensures knows { Knows net.now times.now i result.0 }
{
    let group = &net.groups[i];
    match told_by_group(group, times) {
        Some(told) => {
            windows.set(net, places[group.leader.0 as usize].group, told.at);
            told.by
        }
        None => group.leader,
    }
}

/// Sets the groups that have executed points, and tells one of these for each.
pub fn set_groups(
    alloc: Global,
    net: &Net,
    places: &[Place],
    times: &[Option<i64>],
    windows: &mut Windows,
) -> Result<Vec<PointId>, Memory>
    requires reduced { IsReducedOf (length times.now) (spread net.now) net.now }
    requires reached { (n : ℤ) × IsReached (length times.now) net.now (times_in times.now) n }
    requires places { ArePlaces (length times.now) net.now places.now }
    requires windows { AreWindowsOf net.now windows.old }
    requires unset { times_of windows.old ≡ replicate (length net.now.groups) None }
    ensures set { OnOk result (AreSetBy net.now times.now windows.new) }
    ensures known { IfOk result (λ k. AreKnown net.now times.now (numbers_of k.items)) }
{
    let mut known = Vec::with_capacity(alloc, net.groups.len())?;
    for i in 0..net.groups.len() {
        known.push(set_group(net, i, places, times, windows))?;
    }
    Ok(known)
}
