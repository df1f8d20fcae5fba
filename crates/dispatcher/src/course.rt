ghost use Rattle.std.specs.Prelude.{◌≡◌, ◌↔◌, ◌<◌, ◌≤◌, ◌^◌, ◌≤ℤ◌, ◌<ℤ◌, ℕ, ℤ, pos, true, length, slice_index_or, None, Some, IsTrue, IsOk, IfOk, IfErr, MatchOption, MatchResult};
ghost use Rattle.hs_base.specs.declared.limits.TheConstants.{LAST};
ghost use Rattle.hs_base.specs.Network.{spread};
ghost use Rattle.hs_base.specs.Reduced.{IsReducedOf};
ghost use Rattle.hs_base.specs.Fits.{EachOnce, time_at};
ghost use Rattle.hs_base.specs.declared.net.Group.{Group};
ghost use Rattle.hs_base.specs.Dispatch.{IsReached, group_time};
ghost use Rattle.dispatcher.specs.Places.{StandsAt};
ghost use Rattle.dispatcher.specs.Edges.{IsKnownIn, IsSetAt, LeadsTo, LetsFire};
ghost use Rattle.hs_base.specs.Moments.{Bars, IsLate, IsLeastTied, IsTied, MayFire, MayGoOn, MustFire};
ghost use Rattle.dispatcher.specs.State.{IsLawful, IsOpen, begun, fired, is_observed, points, ticked, time_in, moment};
ghost use Rattle.dispatcher.specs.Marks.{AreMarksOf, Forced, IsHeldBy};

use crate::groups::set_groups;
use crate::marks::mark;
use crate::places::{Place, places};
use crate::times::times_by_point;
use crate::waits::{wait_group, waits_of};
use hs_base::{Bound, List, Member, Memory, Net, PointId, Time};
use local_propagate::{Minima, NEVER, Neighbour, Windows};
use std::alloc::Global;
use std::marker::Model;

/// A reduced network in execution: windows of its groups, the points that are executed, and now.
/// Only `begin` takes memory.
#[derive(Drop)]
pub struct Course {
    net: Net,
    windows: Windows,
    observed: List<bool>,
    times: Vec<Option<i64>>,
    tick: i64,
    places: Vec<Place>,
    known: Vec<PointId>,
    until: Minima,
}

impl Model for Course {
    ghost use Rattle.dispatcher.specs.State.{State};

    ghost Value = { State };

    ghost use Rattle.dispatcher.specs.Kept.{state_of, IsKept};

    ghost view = { state_of };

    ghost invariant = { IsKept };
}

impl Course {
    /// Begins at a time with the executed points, on a reduced network in which each point is marked
    /// as observed or not. It takes all memory that later calls need.
    pub fn begin(
        alloc: Global,
        net: Net,
        observed: List<bool>,
        times: &[Time],
        now: i64,
    ) -> Result<Course, Memory>
        requires reduced { IsReducedOf (length observed) (spread net) net }
        requires once { EachOnce times.now }
        requires reached { IsReached (length observed) net (time_at times.now) now }
        requires last { now ≤ℤ LAST }
        ensures { IfOk result (λ d. d ≡ begun net observed times.now now) }
    {
        let count = observed.len();
        let times = times_by_point(alloc, count, times)?;
        let places = places(alloc, count, &net)?;
        let mut windows = Windows::fresh(alloc, &net)?;
        let known = set_groups(
            alloc,
            &net,
            places.as_slice(),
            times.as_slice(),
            &mut windows,
        )?;
        let until = waits_of(alloc, &windows, places.as_slice(), times.as_slice())?;
        Ok(Course {
            net,
            windows,
            observed,
            times,
            tick: now,
            places,
            known,
            until,
        })
    }

    /// Now.
    pub fn now(&self) -> i64
        ensures value { result ≡ self.now.tick }
        ensures state { IsLawful self.now }
    {
        self.tick
    }

    /// The time of a point, where it is executed.
    pub fn time(&self, p: PointId) -> Option<i64>
        requires { p.0 < points self.now }
        ensures { result ≡ time_in self.now p.0 }
    {
        self.times[p.0 as usize]
    }

    /// The number of points.
    pub fn points(&self) -> usize
        ensures count { result ≡ points self.now }
        ensures small { result ≤ 2 ^ 32 }
    {
        self.times.len()
    }

    /// Whether a point is observed.
    pub fn is_observed(&self, p: PointId) -> bool
        requires { p.0 < points self.now }
        ensures { result ≡ is_observed self.now p.0 }
    {
        self.observed[p.0 as usize]
    }

    /// Whether a point may be executed now: some schedule that fits gives it now. Else a bound from
    /// it, with its tight weight, that this would break.
    pub fn may_fire(&self, p: PointId) -> Result<(), Bound>
        requires { IsOpen self.now p.0 }
        ensures may { IsOk result ↔ MayFire (moment self.now) p.0 }
        ensures barred { IfErr result (Bars (moment self.now) p.0) }
    {
        let place = self.places[p.0 as usize];
        match self.windows.time(place.group) {
            Some(at) => self.fire_of_set(p, place, at),
            None => self.fire_of_unset(p, place),
        }
    }

    /// The least open observed point, other than `p`, that has `p`'s time in every schedule.
    pub fn tied(&self, p: PointId) -> Option<PointId>
        requires { IsOpen self.now p.0 }
        ensures { MatchOption result ((y : ℕ) → IsTied (moment self.now) p.0 y → ⊥) (λ q. IsLeastTied (moment self.now) p.0 q.0) }
    {
        for y in 0..self.times.len() {
            if self.ties(p.0 as usize, y) {
                return Some(PointId(y as u32));
            }
        }
        None
    }

    /// Notes that a point is executed now.
    pub fn set(&mut self, p: PointId)
        requires open { IsOpen self.old p.0 }
        requires may { MayFire (moment self.old) p.0 }
        ensures { self.new ≡ fired self.old p.0 }
    {
        let place = self.places[p.0 as usize];
        self.times[p.0 as usize] = Some(self.tick);
        if self.windows.time(place.group).is_none() {
            self.windows.set(&self.net, place.group, self.tick);
            self.known[place.group as usize] = p;
            wait_group(
                &self.net.groups[place.group as usize],
                self.tick,
                &mut self.until,
            );
        }
        self.until.set(p.0 as usize, NEVER);
    }

    /// The time up to which ticks may be taken, where nothing else happens.
    fn limit(&self) -> i64
        ensures { MayGoOn (moment self.now) ↔ (self.now.tick <ℤ result) }
    {
        self.windows.least_high(&self.net).min(self.until.least())
    }

    /// Whether the time may go on: some schedule that fits gives every open point a later time.
    pub fn may_tick(&self) -> bool
        ensures may { IsTrue result ↔ MayGoOn (moment self.now) }
        ensures state { IsLawful self.now }
    {
        self.tick < self.limit()
    }

    /// Takes a tick.
    pub fn advance(&mut self)
        requires open { (x : ℕ) × IsOpen self.old x }
        requires may { MayGoOn (moment self.old) }
        ensures { self.new ≡ ticked self.old }
    {
        self.tick += 1;
    }

    /// Marks the leaders that are forced now.
    pub fn mark(&self, marks: &mut [Option<PointId>])
        requires { length marks.old ≡ points self.now }
        ensures { AreMarksOf self.now marks.new }
    {
        mark(
            self.net.edges.as_slice(),
            &self.windows,
            self.places.as_slice(),
            self.tick,
            marks,
        );
    }

    /// A point that must be executed now.
    pub fn must_fire(&self, marks: &[Option<PointId>]) -> Option<PointId>
        requires { AreMarksOf self.now marks.now }
        ensures { MatchOption result ((x : ℕ) → MustFire (moment self.now) x → ⊥) (λ q. MustFire (moment self.now) q.0) }
    {
        for x in 0..self.times.len() {
            if self.is_due(x, marks) {
                return Some(PointId(x as u32));
            }
        }
        None
    }

    /// A tight bound to an open observed point that is forced now.
    pub fn late(&self, marks: &[Option<PointId>]) -> Option<Bound>
        requires { AreMarksOf self.now marks.now }
        ensures { MatchOption result ((x : ℕ) → is_observed self.now x ≡ true → IsOpen self.now x → Forced self.now x → ⊥) (IsLate (moment self.now)) }
    {
        for x in 0..self.times.len() {
            if let Some(bound) = self.late_at(x, marks) {
                return Some(bound);
            }
        }
        None
    }

    /// Whether a point must be executed now.
    fn is_due(&self, x: usize, marks: &[Option<PointId>]) -> bool
        requires x { x < points self.now }
        requires marks { AreMarksOf self.now marks.now }
        ensures { IsTrue result ↔ MustFire (moment self.now) x }
    {
        if self.observed[x] || self.times[x].is_some() {
            return false;
        }
        match self.holder(x, marks) {
            None => false,
            Some(_) => self.tied(PointId(x as u32)).is_none(),
        }
    }

    /// The bound that an open observed point would break after now.
    fn late_at(&self, x: usize, marks: &[Option<PointId>]) -> Option<Bound>
        requires x { x < points self.now }
        requires marks { AreMarksOf self.now marks.now }
        ensures { MatchOption result (is_observed self.now x ≡ true → IsOpen self.now x → Forced self.now x → ⊥) (IsLate (moment self.now)) }
    {
        if !self.observed[x] || self.times[x].is_some() {
            return None;
        }
        match self.holder(x, marks) {
            None => None,
            Some(from) => match self.times[from.0 as usize] {
                None => None,
                Some(at) => Some(Bound {
                    from,
                    to: PointId(x as u32),
                    most: self.tick - at,
                }),
            },
        }
    }

    /// An executed point that holds an open one at now.
    fn holder(&self, x: usize, marks: &[Option<PointId>]) -> Option<PointId>
        requires open { IsOpen self.now x }
        requires marks { AreMarksOf self.now marks.now }
        ensures { MatchOption result (Forced self.now x → ⊥) (λ q. IsHeldBy self.now x q.0) }
    {
        let place = self.places[x];
        match self.windows.time(place.group) {
            Some(at) => self.holder_in_set(x, place, at),
            None => self.holder_by_mark(x, place, marks),
        }
    }

    /// The same of a point of a group that is set.
    fn holder_in_set(&self, x: usize, place: Place, at: i64) -> Option<PointId>
        requires place { StandsAt self.now.net x place }
        requires set { IsSetAt self.now place.group at }
        ensures { MatchOption result (Forced self.now x → ⊥) (λ q. IsHeldBy self.now x q.0) }
    {
        if self.tick == at + place.offset {
            return Some(self.known_in(place.group as usize).point);
        }
        None
    }

    /// The same of a point of a group that isn't set.
    fn holder_by_mark(&self, x: usize, place: Place, marks: &[Option<PointId>]) -> Option<PointId>
        requires place { StandsAt self.now.net x place }
        requires unset { (g : Group) → group_time (time_in self.now) (slice_index_or self.now.net.groups place.group g) ≡ None }
        requires marks { AreMarksOf self.now marks.now }
        ensures { MatchOption result (Forced self.now x → ⊥) (λ q. IsHeldBy self.now x q.0) }
    {
        let leader = self.net.groups[place.group as usize].leader;
        if place.offset != 0 {
            return None;
        }
        match marks[leader.0 as usize] {
            None => None,
            Some(origin) => {
                let group = self.places[origin.0 as usize].group;
                Some(self.known_in(group as usize).point)
            }
        }
    }

    /// Whether a point is tied to another one.
    fn ties(&self, x: usize, y: usize) -> bool
        requires x { x < points self.now }
        requires y { y < points self.now }
        ensures { IsTrue result ↔ IsTied (moment self.now) x y }
    {
        if x == y || !self.observed[y] || self.times[y].is_some() {
            return false;
        }
        let here = self.places[x];
        let there = self.places[y];
        here.group == there.group && here.offset == there.offset
    }

    /// The time of a group's leader, where it is set.
    fn time_of(&self, group: usize) -> Option<i64>
        requires { group < length self.now.net.groups }
        ensures { (g : Group) → result ≡ group_time (time_in self.now) (slice_index_or self.now.net.groups group g) }
    {
        let leader = self.net.groups[group].leader;
        self.windows.time(self.places[leader.0 as usize].group)
    }

    /// An executed point of a group that is set.
    fn known_in(&self, group: usize) -> Member
        requires group { group < length self.now.net.groups }
        requires set { (t : ℤ) × IsSetAt self.now group t }
        ensures { (t : ℤ) → IsSetAt self.now group t → IsKnownIn self.now group t result }
    {
        let point = self.known[group];
        Member {
            point,
            offset: self.places[point.0 as usize].offset,
        }
    }

    /// Whether a point of a group that is set may be executed now.
    fn fire_of_set(&self, p: PointId, place: Place, at: i64) -> Result<(), Bound>
        requires open { IsOpen self.now p.0 }
        requires place { StandsAt self.now.net p.0 place }
        requires set { IsSetAt self.now place.group at }
        ensures { MatchResult result (λ _. MayFire (moment self.now) p.0) (Bars (moment self.now) p.0) }
    {
        if self.tick == at + place.offset {
            return Ok(());
        }
        let known = self.known_in(place.group as usize);
        Err(Bound {
            from: p,
            to: known.point,
            most: known.offset - place.offset,
        })
    }

    /// Whether a point of a group that isn't set may be executed now.
    fn fire_of_unset(&self, p: PointId, place: Place) -> Result<(), Bound>
        requires open { IsOpen self.now p.0 }
        requires place { StandsAt self.now.net p.0 place }
        requires unset { (g : Group) → group_time (time_in self.now) (slice_index_or self.now.net.groups place.group g) ≡ None }
        ensures { MatchResult result (λ _. MayFire (moment self.now) p.0) (Bars (moment self.now) p.0) }
    {
        if place.offset != 0 {
            return Err(Bound {
                from: p,
                to: self.net.groups[place.group as usize].leader,
                most: -place.offset,
            });
        }
        let nexts = self.windows.after(&self.net, place.group);
        for next in nexts {
            if let Some(bound) = self.bar_of(p, place.group, *next) {
                return Err(bound);
            }
        }
        Ok(())
    }

    /// The bound by which a neighbour of a group that isn't set keeps its leader's time later.
    fn bar_of(&self, p: PointId, group: u32, next: Neighbour) -> Option<Bound>
        requires open { IsOpen self.now p.0 }
        requires place { StandsAt self.now.net p.0 (record { group = group; offset = pos 0 }) }
        requires next { LeadsTo self.now.net group next }
        ensures { MatchOption result (LetsFire self.now next) (Bars (moment self.now) p.0) }
    {
        if next.most >= 0 {
            return None;
        }
        match self.time_of(next.group) {
            None => Some(Bound {
                from: p,
                to: self.net.groups[next.group].leader,
                most: next.most,
            }),
            Some(at) => {
                if self.tick >= at - next.most {
                    return None;
                }
                let known = self.known_in(next.group);
                Some(Bound {
                    from: p,
                    to: known.point,
                    most: next.most + known.offset,
                })
            }
        }
    }
}
