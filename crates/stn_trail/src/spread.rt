ghost use Rattle.std.specs.Prelude.{◌≡◌, ◌<◌, ◌≤◌, [], length, drop, vec_len, IfOk};
ghost use Rattle.hs_base.specs.Schedule.{time_of};
ghost use Rattle.stn_trail.specs.Moves.{KeepsPast};
ghost use Rattle.stn_trail.specs.Rows.{row_at, AreRows};
ghost use Rattle.stn_trail.specs.Covered.{AreCovered, AreBelow};
ghost use Rattle.stn_trail.specs.Found.{Finds};

use crate::moves::Cause;
use crate::raised::{Queue, Raised};
use crate::row::Row;
use crate::times::Times;
use hs_base::{Bound, Memory};

/// What a look at bounds found.
#[derive(Debug, Drop)]
pub(crate) enum Found {
    /// Each bound is kept, or its end is in the queue.
    Kept,
    /// This bound asks for a later time of a point that does not move.
    Back(Bound),
    /// A time left the range of numbers, or the queue did not come to its end.
    Lost,
}

/// Looks at the bounds of the row of `point` from place `first` on, and raises their starts to
/// what they ask for. The origin, `point` and `goal` stay.
pub(crate) fn raise_starts(
    rows: &[Row],
    point: u32,
    first: usize,
    goal: u32,
    times: &mut Times,
    queue: &mut Queue,
) -> Result<Found, Memory>
    requires point { point < length rows.now }
    requires first { first ≤ length (row_at rows.now point) }
    requires rows { AreRows rows.now }
    requires times { length rows.now ≤ vec_len times.old.ticks }
    requires queue { AreBelow (length rows.now) queue.old.items }
    requires covered { AreCovered rows.now times.old.ticks.items queue.old.items (drop first (row_at rows.now point)) }
    ensures found { IfOk result (Finds rows.now times.new.ticks.items queue.new.items) }
    ensures queue { AreBelow (length rows.now) queue.new.items }
    ensures times { vec_len times.new.ticks ≡ vec_len times.old.ticks }
    ensures origin { time_of times.new.ticks.items 0 ≡ time_of times.old.ticks.items 0 }
    ensures past { KeepsPast (vec_len times.old.moves) times.old.moves.items times.old.ticks.items times.new.moves.items times.new.ticks.items }
{
    let row = rows[point as usize].as_slice();
    let here = times.ticks[point as usize];
    for place in first..row.len() {
        let bound = row[place];
        let start = bound.from.0;
        let Some(due) = here.checked_sub(bound.most) else {
            return Ok(Found::Lost);
        };
        if due > times.ticks[start as usize] {
            if start == 0 || start == point || start == goal {
                return Ok(Found::Back(bound));
            }
            times.set(start, due, Cause::new(point, place))?;
            queue.push_back(Raised {
                point: start,
                time: due,
            })?;
        }
    }
    Ok(Found::Kept)
}

/// Looks at the raised points in turn, until no bound asks for more.
pub(crate) fn spread(
    rows: &[Row],
    goal: u32,
    limit: usize,
    times: &mut Times,
    queue: &mut Queue,
) -> Result<Found, Memory>
    requires rows { AreRows rows.now }
    requires times { length rows.now ≤ vec_len times.old.ticks }
    requires queue { AreBelow (length rows.now) queue.old.items }
    requires covered { AreCovered rows.now times.old.ticks.items queue.old.items [] }
    ensures found { IfOk result (Finds rows.now times.new.ticks.items []) }
    ensures times { vec_len times.new.ticks ≡ vec_len times.old.ticks }
    ensures origin { time_of times.new.ticks.items 0 ≡ time_of times.old.ticks.items 0 }
    ensures past { KeepsPast (vec_len times.old.moves) times.old.moves.items times.old.ticks.items times.new.moves.items times.new.ticks.items }
{
    'points: for _ in 0..limit {
        let Some(raised) = queue.pop_front() else {
            return Ok(Found::Kept);
        };
        if times.ticks[raised.point as usize] == raised.time {
            match raise_starts(rows, raised.point, 0, goal, times, queue)? {
                Found::Kept => {}
                Found::Back(bound) => return Ok(Found::Back(bound)),
                Found::Lost => return Ok(Found::Lost),
            }
        }
    }
    Ok(Found::Lost)
}
