ghost use Rattle.std.specs.Prelude.{◌≡◌, ◌⊎◌, ◌↔◌, ◌<◌, ◌≤◌, ◌≤ℤ◌, ℕ, ℤ, pos, All, IfOk, IsTrue, None, Some, length, map, replicate, slice_set};
ghost use Rattle.std.specs.List.{fold, count_by};
ghost use Rattle.local_propagate.specs.Joined.{IsJoined, IsNear};
ghost use Rattle.local_propagate.specs.Narrowed.{is_negative, raised, lowered, released};

use crate::Minima;
use crate::neighbours::{Neighbour, Neighbours};
use crate::places::{groups_after, groups_before, places};
use hs_base::{LAST, Memory, Net};
use std::alloc::Global;

/// A time past every tick.
pub const NEVER: i64 = LAST + 1;

/// The windows of a network's groups: of each group, by its number in the network, the times that
/// the set ones among its immediate neighbours leave its leader, or the leader's own time where it
/// is set. Times are ticks in 0 to `LAST`.
#[derive(Drop)]
pub struct Windows {
    times: Vec<Option<i64>>,
    low: Vec<i64>,
    high: Minima,
    waits: Vec<usize>,
    after: Neighbours,
    before: Neighbours,
    ghost lows: { length low.items ≡ length times.items },
    ghost highs: { length high ≡ length times.items },
    ghost counts: { length waits.items ≡ length times.items },
}

/// How many negative edges each group has.
fn negative_edges(alloc: Global, after: &Neighbours) -> Result<Vec<usize>, Memory>
    ensures { IfOk result (λ w. w.items ≡ map (count_by is_negative) after.now) }
{
    let mut waits = Vec::with_capacity(alloc, after.len())?;
    for i in 0..after.len() {
        waits.push(after.of(i).iter().filter(|next| next.most < 0).count())?;
    }
    Ok(waits)
}

/// Raises the earliest time of one group with an edge to one that is set.
fn raise_one(last: Neighbour, at: i64, low: &mut [i64])
    requires near { IsNear (length low.old) last }
    requires at_from { pos 0 ≤ℤ at }
    requires at_to { at ≤ℤ LAST }
    ensures { low.new ≡ raised at low.old last }
{
    low[last.group] = low[last.group].max(at - last.most);
}

/// Raises the earliest times of the groups with an edge to one that is set.
fn raise(before: &[Neighbour], at: i64, low: &mut [i64])
    requires near { All (IsNear (length low.old)) before.now }
    requires at_from { pos 0 ≤ℤ at }
    requires at_to { at ≤ℤ LAST }
    ensures { low.new ≡ fold (raised at) low.old before.now }
{
    for last in before {
        raise_one(*last, at, low);
    }
}

/// Lowers the latest time of one group with an edge from one that is set, where it is unset.
fn lower_one(next: Neighbour, times: &[Option<i64>], at: i64, high: &mut Minima)
    requires near { IsNear (length high.old) next }
    requires times { length times.now ≡ length high.old }
    requires at_from { pos 0 ≤ℤ at }
    requires at_to { at ≤ℤ LAST }
    ensures { high.new ≡ lowered times.now at high.old next }
{
    if times[next.group].is_none() {
        high.set(next.group, high.at(next.group).min(at + next.most));
    }
}

/// Lowers the latest times of the unset groups with an edge from one that is set.
fn lower(after: &[Neighbour], times: &[Option<i64>], at: i64, high: &mut Minima)
    requires near { All (IsNear (length high.old)) after.now }
    requires times { length times.now ≡ length high.old }
    requires at_from { pos 0 ≤ℤ at }
    requires at_to { at ≤ℤ LAST }
    ensures { high.new ≡ fold (lowered times.now at) high.old after.now }
{
    for next in after {
        lower_one(*next, times, at, high);
    }
}

/// Counts off the negative edges to a group that is set.
fn release(before: &[Neighbour], waits: &mut [usize])
    requires near { All (IsNear (length waits.old)) before.now }
    ensures { waits.new ≡ fold released waits.old before.now }
{
    for last in before {
        if last.most < 0 {
            waits[last.group] = waits[last.group].saturating_sub(1);
        }
    }
}

impl Windows {
    ghost use Rattle.hs_base.specs.declared.net.Net.{Net};
    ghost use Rattle.hs_base.specs.Windows.{IsLow, IsHigh, AreSet};
    ghost use Rattle.local_propagate.specs.Joined.{after_of, leader_at, leaders_of};
    ghost use Rattle.local_propagate.specs.Windows.{AreWindowsOf, AreApart, times_of, time_of, set_times, low_of, high_of};

    /// The windows of a network's groups, none of them set. Neighbours are listed once, in time and
    /// memory linear in the network.
    pub fn fresh(alloc: Global, net: &Net) -> Result<Windows, Memory>
        requires { IsJoined net.now }
        ensures windows { IfOk result (AreWindowsOf net.now) }
        ensures times { IfOk result (λ w. times_of w ≡ replicate (length net.now.groups) None) }
    {
        let groups = net.groups.len();
        let places = places(alloc, net.groups.as_slice())?;
        let after = groups_after(alloc, net, places.as_slice())?;
        let before = groups_before(alloc, net, places.as_slice())?;
        Ok(Windows {
            times: vec![in alloc; None; groups]?,
            low: vec![in alloc; 0; groups]?,
            high: Minima::new(alloc, groups, LAST)?,
            waits: negative_edges(alloc, &after)?,
            after,
            before,
        })
    }

    /// Sets a group at a time. Only its immediate neighbours' windows change.
    pub fn set(&mut self, _net: &Net, group: u32, at: i64)
        requires windows { AreWindowsOf _net.now self.old }
        requires group { group < length (times_of self.old) }
        requires unset { time_of self.old group ≡ None }
        requires from { pos 0 ≤ℤ at }
        requires to { at ≤ℤ LAST }
        ensures windows { AreWindowsOf _net.now self.new }
        ensures times { times_of self.new ≡ slice_set (times_of self.old) group (Some at) }
        ensures others { (i : ℕ) → AreApart _net.now i group → (low_of self.new i ≡ low_of self.old i) × (high_of self.new i ≡ high_of self.old i) }
    {
        let group = group as usize;
        self.times[group] = Some(at);
        self.high.set(group, NEVER);
        lower(
            self.after.of(group),
            self.times.as_slice(),
            at,
            &mut self.high,
        );
        raise(self.before.of(group), at, self.low.as_mut_slice());
        release(self.before.of(group), self.waits.as_mut_slice());
    }

    /// The time of a group, where it is set.
    pub fn time(&self, group: u32) -> Option<i64>
        requires { group < length (times_of self.now) }
        ensures { result ≡ time_of self.now group }
    {
        self.times[group as usize]
    }

    /// The earliest time of a group: its time where it is set, and else the greatest of 0 and those
    /// that its edges to set groups leave.
    pub fn low(&self, group: u32) -> i64
        requires { group < length (times_of self.now) }
        ensures value { result ≡ low_of self.now group }
        ensures set { (t : ℤ) → time_of self.now group ≡ Some t → result ≡ t }
        ensures unset { (net : Net) → AreWindowsOf net self.now → time_of self.now group ≡ None → IsLow net.edges (set_times net self.now) (leader_at net group) result }
    {
        match self.times[group as usize] {
            Some(at) => at,
            None => self.low[group as usize],
        }
    }

    /// The latest time of a group: its time where it is set, and else the least of `LAST` and those
    /// that edges from set groups leave.
    pub fn high(&self, group: u32) -> i64
        requires { group < length (times_of self.now) }
        ensures value { result ≡ high_of self.now group }
        ensures set { (t : ℤ) → time_of self.now group ≡ Some t → result ≡ t }
        ensures unset { (net : Net) → AreWindowsOf net self.now → time_of self.now group ≡ None → IsHigh net.edges (set_times net self.now) (leader_at net group) result }
    {
        match self.times[group as usize] {
            Some(at) => at,
            None => self.high.at(group as usize),
        }
    }

    /// The groups that the edges of a group lead to.
    pub fn after(&self, _net: &Net, group: u32) -> &[Neighbour]
        requires windows { AreWindowsOf _net.now self.now }
        requires group { group < length (times_of self.now) }
        ensures { result.now ≡ after_of (leaders_of _net.now.groups) _net.now.edges (leader_at _net.now group) }
    {
        self.after.of(group as usize)
    }

    /// Whether each negative edge of a group leads to a set one.
    pub fn enabled(&self, _net: &Net, group: u32) -> bool
        requires windows { AreWindowsOf _net.now self.now }
        requires group { group < length (times_of self.now) }
        ensures { IsTrue result ↔ AreSet _net.now.edges (set_times _net.now self.now) (leader_at _net.now group) }
    {
        self.waits[group as usize] == 0
    }

    /// The least latest time of the unset groups, or `NEVER` where all are set.
    pub fn least_high(&self, _net: &Net) -> i64
        requires { AreWindowsOf _net.now self.now }
        ensures bound { (i : ℕ) → i < length (times_of self.now) → time_of self.now i ≡ None → result ≤ℤ high_of self.now i }
        ensures reached { (result ≡ NEVER) ⊎ ((i : ℕ) × (i < length (times_of self.now)) × (time_of self.now i ≡ None) × (result ≡ high_of self.now i)) }
    {
        if self.times.is_empty() {
            NEVER
        } else {
            self.high.least()
        }
    }
}
