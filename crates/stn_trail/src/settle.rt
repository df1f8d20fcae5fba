ghost use Rattle.std.specs.Prelude.{◌≡◌, ◌-◌, ◌<◌, ◌≤◌, [], ◌∷◌, length, drop, All, vec_len, pos, true, IfOk, IfErr, OnOk};
ghost use Rattle.hs_base.specs.Schedule.{time_of, Holds, Meets, HasNoSchedule};
ghost use Rattle.stn_distance.specs.Ranges.{IsInRange};
ghost use Rattle.hs_base.specs.Cycles.{IsNegativeCycle};
ghost use Rattle.stn_distance.specs.Broken.{IfCycle};
ghost use Rattle.stn_trail.specs.Covered.{AreCovered};
ghost use Rattle.stn_trail.specs.Found.{Finds};
ghost use Rattle.stn_trail.specs.Held.{added};
ghost use Rattle.stn_trail.specs.History.{parts_of};
ghost use Rattle.stn_trail.specs.Moves.{KeepsPast};
ghost use Rattle.stn_trail.specs.Rows.{row_at, AreRows, AreRowsOf};

use crate::cycle::closed;
use crate::moves::Cause;
use crate::part::Step;
use crate::raised::Queue;
use crate::row::Row;
use crate::solving::solve_anew;
use crate::spread::{Found, raise_starts, spread};
use crate::times::Times;
use hs_base::{Bound, List, Memory};
use std::alloc::Global;
use stn_distance::{Broken, POINTS};

/// Raises the start of the last bound of the row of `end` to what it asks for, and then what this
/// asks for in turn.
fn raise_last(
    rows: &[Row],
    end: u32,
    limit: usize,
    times: &mut Times,
    queue: &mut Queue,
) -> Result<Found, Memory>
    requires end { end < length rows.now }
    requires some { 1 ≤ length (row_at rows.now end) }
    requires rows { AreRows rows.now }
    requires times { length rows.now ≤ vec_len times.old.ticks }
    requires covered { AreCovered rows.now times.old.ticks.items [] (drop (length (row_at rows.now end) - 1) (row_at rows.now end)) }
    ensures found { IfOk result (Finds rows.now times.new.ticks.items []) }
    ensures times { vec_len times.new.ticks ≡ vec_len times.old.ticks }
    ensures origin { time_of times.new.ticks.items 0 ≡ time_of times.old.ticks.items 0 }
    ensures past { KeepsPast (vec_len times.old.moves) times.old.moves.items times.old.ticks.items times.new.moves.items times.new.ticks.items }
{
    queue.clear();
    let last = rows[end as usize].as_slice().len() - 1;
    match raise_starts(rows, end, last, end, times, queue)? {
        Found::Kept => spread(rows, end, limit, times, queue),
        Found::Back(bound) => Ok(Found::Back(bound)),
        Found::Lost => Ok(Found::Lost),
    }
}

/// Notes the bound as the cause of its start, if it holds a point with no cause to the origin at
/// exactly the time that it has.
fn anchor(rows: &[Row], bound: Bound, times: &mut Times) -> Result<(), Memory>
    requires start { bound.from.0 < vec_len times.old.ticks }
    requires end { bound.to.0 < length rows.now }
    requires some { 1 ≤ length (row_at rows.now bound.to.0) }
    ensures same { times.new.ticks.items ≡ times.old.ticks.items }
    ensures past { KeepsPast (vec_len times.old.moves) times.old.moves.items times.old.ticks.items times.new.moves.items times.new.ticks.items }
{
    let start = bound.from.0;
    let end = bound.to.0;
    if end != 0 || start == 0 || !times.causes[start as usize].is_none() {
        return Ok(());
    }
    let time = times.ticks[start as usize];
    if time.checked_add(bound.most) == Some(0) {
        let last = rows[end as usize].as_slice().len() - 1;
        times.set(start, time, Cause::new(end, last))?;
    }
    Ok(())
}

/// Whether the times keep the bound as they are.
fn is_kept(times: &Times, bound: Bound) -> bool
    requires start { bound.from.0 < vec_len times.now.ticks }
    requires end { bound.to.0 < vec_len times.now.ticks }
    ensures { result ≡ true → Holds (time_of times.now.ticks.items) bound }
{
    match times.ticks[bound.to.0 as usize].checked_sub(bound.most) {
        Some(due) => due <= times.ticks[bound.from.0 as usize],
        None => false,
    }
}

/// Moves times so that they keep the last bound as well as those before it, or says that none do.
pub(crate) fn settle(
    alloc: Global,
    points: u32,
    steps: &[Step],
    rows: &[Row],
    bound: Bound,
    times: &mut Times,
    queue: &mut Queue,
    way: &mut Vec<Bound>,
) -> Result<(), Broken>
    requires few { (1 ≤ points) × (points ≤ POINTS) }
    requires range { All (IsInRange points) (added (parts_of steps.now)) }
    requires bound { IsInRange points bound }
    requires room { (points ≤ length rows.now) × (length rows.now ≤ vec_len times.old.ticks) }
    requires rows { AreRowsOf (added (parts_of steps.now)) rows.now }
    requires last { drop (length (row_at rows.now bound.to.0) - 1) (row_at rows.now bound.to.0) ≡ bound ∷ [] }
    requires origin { time_of times.old.ticks.items 0 ≡ pos 0 }
    requires covered { AreCovered rows.now times.old.ticks.items [] (bound ∷ []) }
    ensures schedule { OnOk result (Meets (added (parts_of steps.now)) (time_of times.new.ticks.items)) }
    ensures cycle { IfErr result (λ e. IfCycle e (IsNegativeCycle (added (parts_of steps.now)))) }
    ensures none { IfErr result (λ e. IfCycle e (λ _. HasNoSchedule (added (parts_of steps.now)))) }
    ensures times { vec_len times.new.ticks ≡ vec_len times.old.ticks }
    ensures past { KeepsPast (vec_len times.old.moves) times.old.moves.items times.old.ticks.items times.new.moves.items times.new.ticks.items }
{
    anchor(rows, bound, times)?;
    if is_kept(times, bound) {
        return Ok(());
    }
    // points that wait in turn come to rest within as many turns as there are points (Bellman 1958)
    let limit = rows.len().saturating_mul(steps.len()).saturating_add(1);
    match raise_last(rows, bound.to.0, limit, times, queue)? {
        Found::Kept => Ok(()),
        Found::Back(back) => match closed(alloc, rows, &times.causes, bound, back, way)? {
            Some(cycle) => Err(Broken::Cycle(cycle)),
            None => solve_anew(alloc, points, steps, times),
        },
        Found::Lost => solve_anew(alloc, points, steps, times),
    }
}
