ghost use Rattle.std.specs.Prelude.{◌≡◌, ◌+◌, ◌-◌, ◌<◌, ◌≤◌, [], ◌∷◌, ◌++◌, All, Some, length, map, replicate, slice_get, take, IfErr, IfNone, OnErr, OnOk};
ghost use Rattle.hs_base.specs.Schedule.{HasNoSchedule};
ghost use Rattle.stn_distance.specs.Ranges.{IsInRange};
ghost use Rattle.stn_trail.specs.Held.{Appends, IsKept, Leaves, bounds_of, points_of};
ghost use Rattle.stn_trail.specs.declared.part.Part.TheVariants.{Added, Grown};
ghost use Rattle.timeline_db.specs.Courses.{Gains, IsLonger, IsSame, parts_with};
ghost use Rattle.timeline_db.specs.Shutting.{IfCycle};
ghost use Rattle.timeline_db.specs.declared.course.Step.{Step};

use crate::shut::Shut;
use hs_base::{Bound, Memory, PointId};
use search_tree::Part;
use std::alloc::Global;
use stn_distance::{Broken, POINTS};
use stn_trail::{Mark, Trail};

/// A part that was done, and the place in the trail before it.
#[derive(Clone, Copy, Debug)]
pub(crate) struct Step {
    pub part: Part,
    pub mark: Mark,
}

/// The parts that were done, with a schedule of their bounds.
#[derive(Drop)]
pub(crate) struct Course {
    pub trail: Trail,
    pub steps: Vec<Step>,
}

/// Adds so many points. After want of memory some may be added.
fn grow_by(trail: &mut Trail, grown: u32) -> Result<(), Memory>
    requires { points_of trail.old + grown ≤ POINTS }
    ensures grown { OnOk result (Gains (replicate grown Grown) trail.old trail.new) }
    ensures longer { IsLonger trail.old trail.new }
{
    for _ in 0..grown {
        let _ = trail.grow()?;
    }
    Ok(())
}

/// Adds a bound. On a refusal nothing has changed.
fn add(trail: &mut Trail, bound: Bound) -> Result<(), Shut>
    requires { IsInRange (points_of trail.old) bound }
    ensures added { OnOk result (Appends (Added bound) trail.old trail.new) }
    ensures err { OnErr result (trail.new ≡ trail.old) }
    ensures none { IfErr result (λ e. IfCycle e (HasNoSchedule (bounds_of trail.old ++ bound ∷ []))) }
{
    match trail.add(bound) {
        Ok(()) => Ok(()),
        Err(Broken::Cycle(cycle)) => Err(Shut::Cycle(cycle)),
        Err(Broken::Memory) => Err(Shut::Memory),
    }
}

/// Adds bounds. On a refusal some may be added.
pub(crate) fn add_all(trail: &mut Trail, bounds: &[Bound]) -> Result<(), Shut>
    requires { All (IsInRange (points_of trail.old)) bounds.now }
    ensures added { OnOk result (Gains (map (λ b. Added b) bounds.now) trail.old trail.new) }
    ensures longer { IsLonger trail.old trail.new }
    ensures none { IfErr result (λ e. IfCycle e (HasNoSchedule (bounds_of trail.old ++ bounds.now))) }
{
    for bound in bounds {
        if let Err(shut) = add(trail, *bound) {
            return Err(shut);
        }
    }
    Ok(())
}

/// Adds points and then bounds. On a refusal some may be added.
fn extend(trail: &mut Trail, grown: u32, bounds: &[Bound]) -> Result<(), Shut>
    requires room { points_of trail.old + grown ≤ POINTS }
    requires range { All (IsInRange (points_of trail.old + grown)) bounds.now }
    ensures added { OnOk result (Gains (parts_with grown bounds.now) trail.old trail.new) }
    ensures longer { IsLonger trail.old trail.new }
    ensures none { IfErr result (λ e. IfCycle e (HasNoSchedule (bounds_of trail.old ++ bounds.now))) }
{
    grow_by(trail, grown)?;
    add_all(trail, bounds)
}

impl Course {
    /// No part, over a trail.
    pub fn begin(alloc: Global, trail: Trail) -> Course
        ensures trail { result.trail ≡ trail }
        ensures steps { result.steps.items ≡ [] }
    {
        Course {
            trail,
            steps: Vec::new(alloc),
        }
    }

    /// Adds a part's points and bounds. On a refusal nothing has changed.
    pub fn take(&mut self, part: Part, grown: u32, bounds: &[Bound]) -> Result<(), Shut>
        requires room { points_of self.old.trail + grown ≤ POINTS }
        requires range { All (IsInRange (points_of self.old.trail + grown)) bounds.now }
        ensures added { OnOk result (Gains (parts_with grown bounds.now) self.old.trail self.new.trail) }
        ensures steps { OnOk result (self.new.steps.items ≡ self.old.steps.items ++ record { part = part; mark = length self.old.trail.parts } ∷ []) }
        ensures same { OnErr result (IsSame self.old.trail self.new.trail) }
        ensures same_steps { OnErr result (self.new.steps.items ≡ self.old.steps.items) }
        ensures none { IfErr result (λ e. IfCycle e (HasNoSchedule (bounds_of self.old.trail ++ bounds.now))) }
    {
        let mark = self.trail.mark();
        self.steps.push(Step { part, mark })?;
        match extend(&mut self.trail, grown, bounds) {
            Ok(()) => Ok(()),
            Err(shut) => {
                self.trail.undo(mark);
                let _ = self.steps.pop();
                Err(shut)
            }
        }
    }

    /// Takes the last part back.
    pub fn take_back(&mut self) -> Option<Part>
        requires { (s : Step) → slice_get self.old.steps.items (length self.old.steps.items - 1) ≡ Some s → s.mark ≤ length self.old.trail.parts }
        ensures steps { self.new.steps.items ≡ take (length self.old.steps.items - 1) self.old.steps.items }
        ensures none { IfNone result (IsSame self.old.trail self.new.trail) }
        ensures some { (s : Step) → slice_get self.old.steps.items (length self.old.steps.items - 1) ≡ Some s → (result ≡ Some s.part) × Leaves s.mark self.old.trail self.new.trail }
    {
        let step = self.steps.pop()?;
        self.trail.undo(step.mark);
        Some(step.part)
    }
}

/// The trail keeps a schedule.
pub(crate) fn is_kept(trail: &Trail)
    requires { 0 < points_of trail.now }
    ensures { IsKept trail.now }
{
    let _ = trail.at(PointId(0));
}
