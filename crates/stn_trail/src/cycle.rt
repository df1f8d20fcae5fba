ghost use Rattle.std.specs.Prelude.{◌≡◌, ◌<◌, true, IfOk, IfSome};
ghost use Rattle.stn_trail.specs.Rows.{IsIn, AreRows};
ghost use Rattle.stn_trail.specs.Rounds.{cause_at, IsRound};

use crate::moves::Cause;
use crate::row::Row;
use hs_base::{Bound, List, Memory, PointId};
use std::alloc::Global;

/// The bound that gave the point its time, if any did.
fn cause_of(rows: &[Row], causes: &[Cause], point: u32) -> Option<Bound>
    requires rows { AreRows rows.now }
    ensures is { IfSome result (λ b. b ≡ cause_at rows.now causes.now point) }
    ensures start { IfSome result (λ b. b.from.0 ≡ point) }
    ensures given { IfSome result (IsIn rows.now) }
{
    let at = point as usize;
    if at >= causes.len() {
        return None;
    }
    let cause = causes[at];
    let to = cause.to as usize;
    if to >= rows.len() {
        return None;
    }
    let row = rows[to].as_slice();
    let place = cause.place as usize;
    if place >= row.len() || row[place].from.0 != point {
        return None;
    }
    let mut bound = row[place];
    // the same point, taken from the cause: the walk need not wait for the row to tell it
    bound.to = PointId(cause.to);
    Some(bound)
}

/// Follows the causes from the end of a bound back to its start, and answers whether the way is a
/// negative cycle.
pub(crate) fn trace(
    rows: &[Row],
    causes: &[Cause],
    first: Bound,
    way: &mut Vec<Bound>,
) -> Result<bool, Memory>
    requires rows { AreRows rows.now }
    requires first { IsIn rows.now first }
    ensures { IfOk result (λ closed. closed ≡ true → IsRound rows.now way.new.items) }
{
    way.clear();
    way.push(first)?;
    let mut total = first.most;
    let mut at = first.to.0;
    'back: for _ in 0..=rows.len() {
        if at == first.from.0 {
            return Ok(total < 0);
        }
        let Some(bound) = cause_of(rows, causes, at) else {
            return Ok(false);
        };
        let Some(sum) = total.checked_add(bound.most) else {
            return Ok(false);
        };
        way.push(bound)?;
        total = sum;
        at = bound.to.0;
    }
    Ok(false)
}

/// The negative cycle along causes that is closed by the added bound, or by the bound at which the
/// raise met a point that stays.
pub(crate) fn closed(
    alloc: Global,
    rows: &[Row],
    causes: &[Cause],
    added: Bound,
    back: Bound,
    way: &mut Vec<Bound>,
) -> Result<Option<List<Bound>>, Memory>
    requires rows { AreRows rows.now }
    requires added { IsIn rows.now added }
    requires back { IsIn rows.now back }
    ensures { IfOk result (λ found. IfSome found (IsRound rows.now)) }
{
    if trace(rows, causes, back, way)? || trace(rows, causes, added, way)? {
        return Ok(Some(List::from_vec(Vec::from_slice(alloc, way)?)));
    }
    Ok(None)
}
