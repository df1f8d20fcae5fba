ghost use Rattle.std.specs.Prelude.{◌<◌, ◌≤◌, All, IfOk};
ghost use Rattle.std.specs.Bool.{OnTrue};
ghost use Rattle.stn_distance.specs.Ranges.{StaysInTime};
ghost use Rattle.stn_distance.specs.Rows.{IsStep, Sample, Returns, room};

use hs_base::{Bound, Memory};
use std::alloc::Global;

/// Lowers each number of the column that a bound wants lower, in one turn over the bounds, and
/// says whether there was one.
fn lower_column(count: usize, bounds: &[Bound], column: &mut [i64]) -> bool
    requires some { 1 ≤ count }
    requires range { All (IsStep count) bounds.now }
    requires sample { Sample count bounds.now }
    requires returns { Returns count bounds.now column.old }
    ensures returns { Returns count bounds.now column.new }
    ensures lowered { OnTrue result (room column.new < room column.old) }
{
    let mut lowered = false;
    for bound in bounds {
        let from = bound.from.0 as usize;
        let to = bound.to.0 as usize;
        let reached = column[to] + bound.most;
        if reached < column[from] {
            column[from] = reached;
            lowered = true;
        }
    }
    lowered
}

/// How far after each point the first can stand.
pub(crate) fn column_of(alloc: Global, count: usize, bounds: &[Bound]) -> Result<Vec<i64>, Memory>
    requires some { 1 ≤ count }
    requires range { All (IsStep count) bounds.now }
    requires stays { StaysInTime count bounds.now }
    requires sample { Sample count bounds.now }
    ensures { IfOk result (λ v. Returns count bounds.now v.items) }
{
    let mut column = vec![in alloc; 0i64; count]?;
    'turns: while lower_column(count, bounds, &mut column) {}
    Ok(column)
}
