ghost use Rattle.std.specs.Prelude.{◌≤ℤ◌, pos, ◌<◌, ◌≤◌, length, All, IfOk};
ghost use Rattle.std.specs.Bool.{OnTrue, OnFalse};
ghost use Rattle.hs_base.specs.Schedule.{Implied, Holds, time_of};
ghost use Rattle.stn_distance.specs.Ranges.{StaysInTime};
ghost use Rattle.stn_distance.specs.Rows.{IsStep, Sample, Reaches, room, IsRow, AreRows, AreSmall, IsIndex, items_of};

use crate::column::column_of;
use crate::nearest::{approach, index_of};
use hs_base::{Bound, LAST, Memory};
use std::alloc::Global;

/// More than any schedule has between two points.
const FAR: i64 = 2 * LAST;

/// Lowers each number of the row that a bound wants lower, in one turn over the bounds, and says
/// whether there was one.
fn lower_row(count: usize, bounds: &[Bound], source: usize, row: &mut [i64]) -> bool
    requires source { source < count }
    requires range { All (IsStep count) bounds.now }
    requires sample { Sample count bounds.now }
    requires reaches { Reaches count bounds.now source row.old }
    ensures reaches { Reaches count bounds.now source row.new }
    ensures lowered { OnTrue result (room row.new < room row.old) }
    ensures settled { OnFalse result (All (Holds (time_of row.new)) bounds.now) }
{
    let mut lowered = false;
    for bound in bounds {
        let from = bound.from.0 as usize;
        let to = bound.to.0 as usize;
        let reached = row[from] + bound.most;
        if reached < row[to] {
            row[to] = reached;
            lowered = true;
        }
    }
    lowered
}

/// Lowers the row until each bound is kept.
fn settle(count: usize, bounds: &[Bound], source: usize, row: &mut [i64])
    requires source { source < count }
    requires range { All (IsStep count) bounds.now }
    requires sample { Sample count bounds.now }
    requires reaches { Reaches count bounds.now source row.old }
    ensures { IsRow count bounds.now source row.new }
{
    'turns: while lower_row(count, bounds, source, row) {}
}

/// Starts a row: its own point at 0, and each other further than any schedule has it.
fn fresh_row(
    alloc: Global,
    count: usize,
    bounds: &[Bound],
    source: usize,
) -> Result<Vec<i64>, Memory>
    requires source { source < count }
    requires stays { StaysInTime count bounds.now }
    ensures { IfOk result (λ row. Reaches count bounds.now source row.items) }
{
    let mut row = vec![in alloc; FAR; count]?;
    row[source] = 0;
    Ok(row)
}

/// The distances from point 0.
fn origin_row(
    alloc: Global,
    count: usize,
    bounds: &[Bound],
    first: &[usize],
    potentials: &[i64],
) -> Result<Vec<i64>, Memory>
    requires some { 1 ≤ count }
    requires index { IsIndex count (length bounds.now) first.now }
    requires range { All (IsStep count) bounds.now }
    requires stays { StaysInTime count bounds.now }
    requires sample { Sample count bounds.now }
    requires potentials { AreSmall count potentials.now }
    ensures { IfOk result (λ row. IsRow count bounds.now 0 row.items) }
{
    let mut row = fresh_row(alloc, count, bounds, 0)?;
    approach(alloc, count, bounds, first, potentials, 0, &mut row)?;
    settle(count, bounds, 0, &mut row);
    Ok(row)
}

/// Starts a row with the ways through point 0, which is at most `back` after the row's point.
fn row_by_origin(
    alloc: Global,
    count: usize,
    bounds: &[Bound],
    source: usize,
    back: i64,
    origin: &[i64],
) -> Result<Vec<i64>, Memory>
    requires source { source < count }
    requires stays { StaysInTime count bounds.now }
    requires sample { Sample count bounds.now }
    requires origin { IsRow count bounds.now 0 origin.now }
    requires back { Implied bounds.now source 0 back }
    requires back_high { back ≤ℤ pos 0 }
    ensures { IfOk result (λ row. Reaches count bounds.now source row.items) }
{
    let mut row = Vec::with_capacity(alloc, count)?;
    for time in origin {
        row.push(back + *time)?;
    }
    row[source] = 0;
    Ok(row)
}

/// The distances from a point.
fn row_from(
    alloc: Global,
    count: usize,
    bounds: &[Bound],
    first: &[usize],
    potentials: &[i64],
    source: u32,
    back: i64,
    origin: &[i64],
) -> Result<Vec<i64>, Memory>
    requires source { source < count }
    requires index { IsIndex count (length bounds.now) first.now }
    requires range { All (IsStep count) bounds.now }
    requires stays { StaysInTime count bounds.now }
    requires sample { Sample count bounds.now }
    requires potentials { AreSmall count potentials.now }
    requires origin { IsRow count bounds.now 0 origin.now }
    requires back { Implied bounds.now source 0 back }
    requires back_high { back ≤ℤ pos 0 }
    ensures { IfOk result (λ row. IsRow count bounds.now source row.items) }
{
    let mut row = row_by_origin(alloc, count, bounds, source as usize, back, origin)?;
    approach(alloc, count, bounds, first, potentials, source, &mut row)?;
    settle(count, bounds, source as usize, &mut row);
    Ok(row)
}

/// The distances from each point, by bounds in the order of their starts.
pub(crate) fn rows_of(
    alloc: Global,
    n: u32,
    bounds: &[Bound],
    potentials: &[i64],
) -> Result<Vec<Vec<i64>>, Memory>
    requires few { (1 ≤ n) × (n ≤ 131072) }
    requires range { All (IsStep n) bounds.now }
    requires stays { StaysInTime n bounds.now }
    requires sample { Sample n bounds.now }
    requires potentials { AreSmall n potentials.now }
    ensures { IfOk result (λ v. AreRows n bounds.now (items_of v.items)) }
{
    let count = n as usize;
    let first = index_of(alloc, count, bounds)?;
    let column = column_of(alloc, count, bounds)?;
    let origin = origin_row(alloc, count, bounds, &first, potentials)?;
    let mut rows = Vec::new(alloc);
    for source in 0..n {
        let back = column[source as usize];
        let row = row_from(
            alloc, count, bounds, &first, potentials, source, back, &origin,
        )?;
        rows.push(row)?;
    }
    Ok(rows)
}
