ghost use Rattle.std.specs.Prelude.{◌≡◌, ◌++◌, pos, ◌≤ℤ◌, OnOk};
ghost use Rattle.hs_base.specs.Ranges.{range};
ghost use Rattle.hs_base.specs.Bounds.{apart, exactly, relation_bounds};
ghost use Rattle.hs_base.specs.Missions.{HasRanges};

use hs_base::{Bound, List, Memory, PointId, Range, Relation};

/// Adds the two bounds by which `x` stands in the range after `y`.
pub(crate) fn add_apart(
    made: &mut List<Bound>,
    x: PointId,
    y: PointId,
    range: Range,
) -> Result<(), Memory>
    requires { pos 0 ≤ℤ range.low }
    ensures { OnOk result (made.new ≡ made.old ++ apart x.0 y.0 range) }
{
    made.push(Bound {
        from: y,
        to: x,
        most: range.high,
    })?;
    made.push(Bound {
        from: x,
        to: y,
        most: -range.low,
    })?;
    Ok(())
}

/// Adds the two bounds by which `x` stands exactly at a time.
pub(crate) fn add_exactly(made: &mut List<Bound>, x: PointId, at: i64) -> Result<(), Memory>
    requires { pos 0 ≤ℤ at }
    ensures { OnOk result (made.new ≡ made.old ++ exactly x.0 at) }
{
    add_apart(made, x, PointId(0), Range { low: at, high: at })
}

/// The points that start and end a token.
#[derive(Clone, Copy)]
pub(crate) struct Ends {
    pub start: PointId,
    pub stop: PointId,
}

const TOGETHER: Range = Range { low: 0, high: 0 };

/// Adds the bounds of a relation between the token that has the need and the one that serves it.
pub(crate) fn add_relation(
    made: &mut List<Bound>,
    relation: Relation,
    x: Ends,
    y: Ends,
) -> Result<(), Memory>
    requires { HasRanges relation }
    ensures { OnOk result (made.new ≡ made.old ++ relation_bounds relation x.start.0 x.stop.0 y.start.0 y.stop.0) }
{
    match relation {
        Relation::Before(range) => add_apart(made, y.start, x.stop, range),
        Relation::After(range) => add_apart(made, x.start, y.stop, range),
        Relation::Meets => add_apart(made, y.start, x.stop, TOGETHER),
        Relation::MetBy => add_apart(made, x.start, y.stop, TOGETHER),
        Relation::Starts(range) => add_apart(made, y.start, x.start, range),
        Relation::Ends(range) => add_apart(made, y.stop, x.stop, range),
        Relation::Equals => {
            add_apart(made, y.start, x.start, TOGETHER)?;
            add_apart(made, y.stop, x.stop, TOGETHER)
        }
        Relation::Contains(start, stop) => {
            add_apart(made, y.start, x.start, start)?;
            add_apart(made, x.stop, y.stop, stop)
        }
        Relation::ContainedBy(start, stop) => {
            add_apart(made, x.start, y.start, start)?;
            add_apart(made, y.stop, x.stop, stop)
        }
    }
}
