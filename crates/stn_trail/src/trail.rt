ghost use Rattle.std.specs.Prelude.{◌≡◌, ◌+◌, ◌-◌, ◌<◌, ◌≤◌, [], ◌∷◌, ◌++◌, length, replicate, vec_len, IfOk, IfErr, OnOk, OnErr};
ghost use Rattle.hs_base.specs.Schedule.{time_of, HasNoSchedule};
ghost use Rattle.stn_distance.specs.Ranges.{IsInRange};
ghost use Rattle.hs_base.specs.Cycles.{IsNegativeCycle};
ghost use Rattle.stn_distance.specs.Broken.{IfCycle};
ghost use Rattle.stn_trail.specs.declared.part.Part.TheVariants.{Grown, Added};
ghost use Rattle.stn_trail.specs.Widens.{Widens};
ghost use Rattle.stn_trail.specs.Held.{points_of, bounds_of, IsKept, IsFresh, Appends, Leaves};

use crate::part::Step;
use crate::raised::Queue;
use crate::row::Row;
use crate::settle::settle;
use crate::times::Times;
use crate::{Mark, Part};
use hs_base::{Bound, Memory, PointId};
use std::alloc::Global;
use std::collections::VecDeque;
use std::marker::Model;
use stn_distance::{Broken, POINTS};

/// Points and bounds that are added one by one and taken back in turn, with a schedule that keeps
/// them.
#[derive(Debug, Drop)]
pub struct Trail {
    alloc: Global,
    first: u32,
    count: u32,
    steps: Vec<Step>,
    rows: Vec<Row>,
    times: Times,
    queue: Queue,
    /// The way along causes that was followed last.
    way: Vec<Bound>,
}

impl Model for Trail {
    ghost use Rattle.std.specs.Prelude.{take};
    ghost use Rattle.stn_trail.specs.Held.{Held};
    ghost use Rattle.stn_trail.specs.History.{parts_of, IsTrail};

    ghost Value = { Held };

    ghost view = { λ t. record { first = t.first; parts = parts_of t.steps.items; times = take t.count t.times.ticks.items } };

    ghost invariant = { λ t. IsTrail t.first t.count t.steps.items t.rows.items t.times.moves.items t.times.ticks.items };
}

/// So many empty rows.
fn empty_rows(alloc: Global, points: u32) -> Result<Vec<Row>, Memory>
    ensures { IfOk result (λ rows. rows.items ≡ replicate points []) }
{
    let mut rows = Vec::with_capacity(alloc, points as usize)?;
    for _ in 0..points {
        rows.push(Row::new(alloc))?;
    }
    Ok(rows)
}

/// Room for one more point than `count`.
fn make_room(
    alloc: Global,
    count: usize,
    times: &mut Times,
    rows: &mut Vec<Row>,
) -> Result<(), Memory>
    requires { (count ≤ vec_len rows.old) × (vec_len rows.old ≤ vec_len times.old.ticks) }
    ensures room { OnOk result (count < vec_len rows.new) }
    ensures wider { Widens count times.old.moves.items rows.old.items times.old.ticks.items rows.new.items times.new.ticks.items }
    ensures moves { times.new.moves.items ≡ times.old.moves.items }
{
    if rows.len() > count {
        return Ok(());
    }
    if times.ticks.len() == count {
        times.grow()?;
    }
    rows.push(Row::new(alloc))?;
    Ok(())
}

impl Trail {
    /// A trail of so many points, 1 to 131,072, the origin among them.
    pub fn begin(alloc: Global, points: u32) -> Result<Trail, Memory>
        requires { (1 ≤ points) × (points ≤ POINTS) }
        ensures fresh { IfOk result (IsFresh points) }
        ensures kept { IfOk result IsKept }
    {
        Ok(Trail {
            alloc,
            first: points,
            count: points,
            steps: Vec::new(alloc),
            rows: empty_rows(alloc, points)?,
            times: Times::new(alloc, points as usize)?,
            queue: VecDeque::new(alloc),
            way: Vec::new(alloc),
        })
    }

    /// Adds a point that no bound names yet. After want of memory the trail is unchanged.
    pub fn grow(&mut self) -> Result<PointId, Memory>
        requires { points_of self.old < POINTS }
        ensures point { IfOk result (λ p. p.0 ≡ points_of self.old) }
        ensures grown { OnOk result (Appends Grown self.old self.new) }
        ensures points { OnOk result (points_of self.new ≡ points_of self.old + 1) }
        ensures kept { OnOk result (IsKept self.new) }
        ensures err { OnErr result (self.new ≡ self.old) }
    {
        let point = self.count;
        make_room(self.alloc, point as usize, &mut self.times, &mut self.rows)?;
        self.steps.push(Step {
            part: Part::Grown,
            since: self.times.moves.len(),
        })?;
        self.count += 1;
        Ok(PointId(point))
    }

    /// Adds a bound, or refuses it with a negative cycle. Cycle comes exactly where no schedule
    /// keeps all bounds, and a refused bound leaves the trail unchanged.
    ///
    /// Only the points are touched whose times have to rise, after Ramalingam, Song, Joskowicz and
    /// Miller (1999) and Cotton and Maler (2006).
    pub fn add(&mut self, bound: Bound) -> Result<(), Broken>
        requires { IsInRange (points_of self.old) bound }
        ensures added { OnOk result (Appends (Added bound) self.old self.new) }
        ensures points { points_of self.new ≡ points_of self.old }
        ensures kept { OnOk result (IsKept self.new) }
        ensures err { OnErr result (self.new ≡ self.old) }
        ensures cycle { IfErr result (λ e. IfCycle e (IsNegativeCycle (bounds_of self.old ++ bound ∷ []))) }
        ensures none { IfErr result (λ e. IfCycle e (λ _. HasNoSchedule (bounds_of self.old ++ bound ∷ []))) }
    {
        let since = self.times.moves.len();
        let end = bound.to.0 as usize;
        self.steps.push(Step {
            part: Part::Added(bound),
            since,
        })?;
        if let Err(memory) = self.rows[end].push(bound) {
            let _ = self.steps.pop();
            return Err(Broken::from(memory));
        }
        let settled = settle(
            self.alloc,
            self.count,
            &self.steps,
            &self.rows,
            bound,
            &mut self.times,
            &mut self.queue,
            &mut self.way,
        );
        if let Err(broken) = settled {
            self.times.rewind(since);
            self.rows[end].pop();
            let _ = self.steps.pop();
            return Err(broken);
        }
        Ok(())
    }

    /// A place to come back to.
    pub fn mark(&self) -> Mark
        ensures { result ≡ length self.now.parts }
    {
        Mark::after(self.steps.len())
    }

    /// Takes back what came after the mark.
    pub fn undo(&mut self, mark: Mark)
        requires { mark ≤ length self.old.parts }
        ensures left { Leaves mark self.old self.new }
        ensures kept { IsKept self.new }
    {
        'parts: while self.steps.len() > mark.parts() {
            self.take_back();
        }
    }

    /// Takes the last part back.
    fn take_back(&mut self)
        requires { 0 < length self.old.parts }
        ensures { Leaves (length self.old.parts - 1) self.old self.new }
    {
        if let Some(step) = self.steps.pop() {
            self.times.rewind(step.since);
            match step.part {
                Part::Grown => self.count -= 1,
                Part::Added(bound) => self.rows[bound.to.0 as usize].pop(),
            }
        }
    }

    /// The time of a point, in ticks, in a schedule of all bounds: the times of all points until
    /// the next change are one schedule.
    pub fn at(&self, p: PointId) -> i64
        requires { p.0 < points_of self.now }
        ensures time { result ≡ time_of self.now.times p.0 }
        ensures kept { IsKept self.now }
    {
        self.times.ticks[p.0 as usize]
    }
}
