ghost use Rattle.std.specs.Prelude.{◌≡◌, ◌↔◌, ◌<◌, ◌≤◌, ◌^◌, ◌≤ℤ◌, ℕ, length, IsTrue, IsOk, IfOk, IfErr, IfSome, IsNone, MatchOption};
ghost use Rattle.hs_base.specs.declared.limits.TheConstants.{LAST};
ghost use Rattle.hs_base.specs.Network.{spread};
ghost use Rattle.hs_base.specs.Reduced.{IsReducedOf};
ghost use Rattle.hs_base.specs.Fits.{EachOnce, time_at};
ghost use Rattle.hs_base.specs.Dispatch.{IsReached};
ghost use Rattle.hs_base.specs.Moments.{Bars, IsInTime, IsLate, IsLeastTied, IsTied, MayFire, MayGoOn, MustFire};
ghost use Rattle.dispatcher.specs.State.{IsLawful, IsOpen, begun, fired, is_observed, points, ticked, time_in, moment};

use crate::course::Course;
use hs_base::{Bound, List, Memory, Net, PointId, Time};
use std::alloc::Global;
use std::marker::Model;

/// A reduced network in execution.
///
/// Dispatching execution (Muscettola, Morris, Tsamardinos 1998), over the leaders of rigid groups.
/// Times are ticks in 0 to `LAST`. Only `begin` takes memory.
#[derive(Drop)]
pub struct Dispatch {
    course: Course,
    marks: Vec<Option<PointId>>,
}

impl Model for Dispatch {
    ghost use Rattle.std.specs.Prelude.{◌≡◌, length};
    ghost use Rattle.dispatcher.specs.State.{State, points};

    ghost Value = { State };

    ghost view = { λ d. d.course };

    ghost invariant = { λ d. length d.marks.items ≡ points d.course };
}

impl Dispatch {
    /// Begins at a time with the executed points, on a reduced network in which each point is marked
    /// as observed or not. It takes all memory that later calls need.
    pub fn begin(
        alloc: Global,
        net: Net,
        observed: List<bool>,
        times: &[Time],
        now: i64,
    ) -> Result<Dispatch, Memory>
        requires reduced { IsReducedOf (length observed) (spread net) net }
        requires once { EachOnce times.now }
        requires reached { IsReached (length observed) net (time_at times.now) now }
        requires last { now ≤ℤ LAST }
        ensures { IfOk result (λ d. d ≡ begun net observed times.now now) }
    {
        let marks = vec![in alloc; None; observed.len()]?;
        let course = Course::begin(alloc, net, observed, times, now)?;
        Ok(Dispatch { course, marks })
    }

    /// Now.
    pub fn now(&self) -> i64
        ensures value { result ≡ self.now.tick }
        ensures state { IsLawful self.now }
    {
        self.course.now()
    }

    /// The time of a point, where it is executed.
    pub fn time(&self, p: PointId) -> Option<i64>
        requires { p.0 < points self.now }
        ensures { result ≡ time_in self.now p.0 }
    {
        self.course.time(p)
    }

    /// The number of points.
    pub fn points(&self) -> usize
        ensures count { result ≡ points self.now }
        ensures small { result ≤ 2 ^ 32 }
    {
        self.course.points()
    }

    /// Whether a point is observed.
    pub fn is_observed(&self, p: PointId) -> bool
        requires { p.0 < points self.now }
        ensures { result ≡ is_observed self.now p.0 }
    {
        self.course.is_observed(p)
    }

    /// The least open observed point, other than `p`, that has `p`'s time in every schedule.
    pub fn tied(&self, p: PointId) -> Option<PointId>
        requires { IsOpen self.now p.0 }
        ensures { MatchOption result ((y : ℕ) → IsTied (moment self.now) p.0 y → ⊥) (λ q. IsLeastTied (moment self.now) p.0 q.0) }
    {
        self.course.tied(p)
    }

    /// Whether a point may be executed now: some schedule that fits gives it now. Else a bound from
    /// it, with its tight weight, that this would break.
    pub fn may_fire(&mut self, p: PointId) -> Result<(), Bound>
        requires { IsOpen self.old p.0 }
        ensures may { IsOk result ↔ MayFire (moment self.old) p.0 }
        ensures barred { IfErr result (Bars (moment self.old) p.0) }
        ensures same { self.new ≡ self.old }
    {
        self.course.may_fire(p)
    }

    /// Notes that a point is executed now.
    pub fn set(&mut self, p: PointId)
        requires open { IsOpen self.old p.0 }
        requires may { MayFire (moment self.old) p.0 }
        ensures { self.new ≡ fired self.old p.0 }
    {
        self.course.set(p);
    }

    /// Whether the time may go on: some schedule that fits gives every open point a later time.
    pub fn may_tick(&mut self) -> bool
        ensures may { IsTrue result ↔ MayGoOn (moment self.old) }
        ensures same { self.new ≡ self.old }
    {
        self.course.may_tick()
    }

    /// Takes a tick.
    pub fn advance(&mut self)
        requires open { (x : ℕ) × IsOpen self.old x }
        requires may { MayGoOn (moment self.old) }
        ensures { self.new ≡ ticked self.old }
    {
        self.course.advance();
    }

    /// A point that must be executed now: it is forced, not observed, and not tied to an open
    /// observed point.
    pub fn must_fire(&mut self) -> Option<PointId>
        ensures due { MatchOption result ((x : ℕ) → MustFire (moment self.old) x → ⊥) (λ q. MustFire (moment self.old) q.0) }
        ensures same { self.new ≡ self.old }
    {
        if self.course.may_tick() {
            return None;
        }
        self.course.mark(self.marks.as_mut_slice());
        self.course.must_fire(self.marks.as_slice())
    }

    /// Where no tick may be taken and no point must be executed: a tight bound to an open observed
    /// point, which a tick would break.
    pub fn late(&mut self) -> Option<Bound>
        ensures late { IfSome result (IsLate (moment self.old)) }
        ensures none { IsNone result ↔ IsInTime (moment self.old) }
        ensures same { self.new ≡ self.old }
    {
        if self.course.may_tick() {
            return None;
        }
        self.course.mark(self.marks.as_mut_slice());
        match self.course.must_fire(self.marks.as_slice()) {
            Some(_) => None,
            None => self.course.late(self.marks.as_slice()),
        }
    }
}
