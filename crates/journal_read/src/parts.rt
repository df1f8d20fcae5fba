//! Numbers below 0, points of the plan that was handed over last, and bounds.
ghost use Rattle.std.specs.Prelude.{◌≡◌, ◌≤ℤ◌, pos, neg_ℤ};
ghost use Rattle.plan_text.specs.Answers.{Gives, Keeps};
ghost use Rattle.journal_read.specs.LogReading.{signed_at, point_of_at, token_of_at, horizon_of_at, bound_of_at, bound_at};

use hs_texts::WrittenPoint;
use log_laws::WrittenBound;
use plan_text::{PlanReader, Stop, WrittenPlan};
use std::alloc::Global;

/// The number below 0 with these digits.
fn negated(number: i64) -> i64
    requires { pos 0 ≤ℤ number }
    ensures { result ≡ neg_ℤ number }
{
    -number
}

/// Reads a number, which may have a `-` before it.
#[tactic(auto, unfolding(crate::specs::LogReading::signed_at, crate::specs::LogReading::negated_at))]
pub fn signed(reader: &mut PlanReader) -> Result<i64, Stop>
    ensures { Gives result reader.new (signed_at reader.old) }
{
    if reader.is_at_symbol(b'-') {
        reader.symbol(b'-')?;
        let number = reader.number()?;
        return Ok(negated(number));
    }
    reader.number()
}

/// Reads a point of the plan.
#[tactic(auto, unfolding(crate::specs::LogReading::point_of_at))]
pub fn point_of(
    reader: &mut PlanReader,
    alloc: Global,
    plan: &WrittenPlan,
) -> Result<WrittenPoint, Stop>
    ensures { Keeps result reader.new (point_of_at plan.now.mission plan.now.extensions reader.old) }
{
    let point = reader.point(alloc)?;
    if !plan.has(&point) {
        return Err(Stop::Pieces(point.size()));
    }
    Ok(point)
}

/// Reads the end of a token of the plan.
#[tactic(auto, unfolding(crate::specs::LogReading::token_of_at))]
pub fn token_of(
    reader: &mut PlanReader,
    alloc: Global,
    plan: &WrittenPlan,
) -> Result<WrittenPoint, Stop>
    ensures { Keeps result reader.new (token_of_at plan.now.mission plan.now.extensions reader.old) }
{
    let point = WrittenPoint::End(reader.token(alloc)?);
    if !plan.has(&point) {
        return Err(Stop::Pieces(2));
    }
    Ok(point)
}

/// Reads the number of a horizon of the plan.
#[tactic(auto, unfolding(crate::specs::LogReading::horizon_of_at))]
pub fn horizon_of(reader: &mut PlanReader, plan: &WrittenPlan) -> Result<WrittenPoint, Stop>
    ensures { Keeps result reader.new (horizon_of_at plan.now.mission plan.now.extensions reader.old) }
{
    let point = WrittenPoint::Horizon(reader.count()?);
    if !plan.has(&point) {
        return Err(Stop::Pieces(1));
    }
    Ok(point)
}

/// Reads a bound between points of the plan.
#[tactic(auto, unfolding(crate::specs::LogReading::bound_of_at, crate::specs::LogReading::bound_to_at, crate::specs::LogReading::bound_most_at))]
pub fn bound_of(
    reader: &mut PlanReader,
    alloc: Global,
    plan: &WrittenPlan,
) -> Result<WrittenBound, Stop>
    ensures { Keeps result reader.new (bound_of_at plan.now.mission plan.now.extensions reader.old) }
{
    let from = point_of(reader, alloc, plan)?;
    reader.keyword(b"to")?;
    let to = point_of(reader, alloc, plan)?;
    reader.keyword(b"most")?;
    let most = signed(reader)?;
    Ok(WrittenBound { from, to, most })
}

/// Reads a bound between any points.
#[tactic(auto, unfolding(crate::specs::LogReading::bound_at))]
pub fn bound(reader: &mut PlanReader, alloc: Global) -> Result<WrittenBound, Stop>
    ensures { Gives result reader.new (bound_at reader.old) }
{
    let from = reader.point(alloc)?;
    reader.keyword(b"to")?;
    let to = reader.point(alloc)?;
    reader.keyword(b"most")?;
    let most = signed(reader)?;
    Ok(WrittenBound { from, to, most })
}
