ghost use Rattle.std.specs.Prelude.{◌≡◌, ◌<◌, ◌≤ℤ◌, ℕ, ℤ, pos, length, All, IfOk, Some};
ghost use Rattle.std.specs.List.{fold};
ghost use Rattle.hs_base.specs.declared.limits.TheConstants.{LAST};
ghost use Rattle.hs_base.specs.Dispatch.{stands};
ghost use Rattle.local_propagate.specs.Windows.{times_of, time_of};
ghost use Rattle.dispatcher.specs.Places.{IsNearLeader, place_at};
ghost use Rattle.dispatcher.specs.Index.{AreWaits, IsWithin, wait, waited};

use crate::places::Place;
use hs_base::{Group, Member, Memory};
use local_propagate::{Minima, NEVER, Windows};
use std::alloc::Global;

/// Lets members of a group that is set at a time wait until their own times.
fn wait_members(members: &[Member], at: i64, until: &mut Minima)
    requires near { All (IsNearLeader (length until.old)) members.now }
    requires from { pos 0 ≤ℤ at }
    requires to { at ≤ℤ LAST }
    ensures { until.new ≡ fold (waited at) until.old members.now }
{
    for member in members {
        until.set(member.point.0 as usize, at + member.offset);
    }
}

/// Lets all points of a group that is set at a time wait until their own times.
pub fn wait_group(group: &Group, at: i64, until: &mut Minima)
    requires near { All (IsNearLeader (length until.old)) (stands group.now) }
    requires from { pos 0 ≤ℤ at }
    requires to { at ≤ℤ LAST }
    ensures { until.new ≡ fold (waited at) until.old (stands group.now) }
{
    until.set(group.leader.0 as usize, at);
    wait_members(group.members.as_slice(), at, until);
}

/// Until when a point can wait, by its own time and its group's.
fn wait(own: Option<i64>, group: Option<i64>, offset: i64) -> i64
    requires group { (t : ℤ) → group ≡ Some t → IsWithin t }
    requires offset { IsWithin offset }
    ensures { result ≡ wait own group offset }
{
    match (own, group) {
        (None, Some(at)) => at + offset,
        _ => NEVER,
    }
}

/// Until when each point can wait.
pub fn waits_of(
    alloc: Global,
    windows: &Windows,
    places: &[Place],
    times: &[Option<i64>],
) -> Result<Minima, Memory>
    requires points { length places.now ≡ length times.now }
    requires groups { (x : ℕ) → x < length times.now → (place_at places.now x).group < length (times_of windows.now) }
    requires offsets { (x : ℕ) → x < length times.now → IsWithin (place_at places.now x).offset }
    requires set { (i : ℕ) (t : ℤ) → time_of windows.now i ≡ Some t → IsWithin t }
    ensures { IfOk result (λ u. AreWaits windows.now places.now times.now u) }
{
    let mut until = Minima::new(alloc, times.len(), NEVER)?;
    for x in 0..times.len() {
        let group = windows.time(places[x].group);
        until.set(x, wait(times[x], group, places[x].offset));
    }
    Ok(until)
}
