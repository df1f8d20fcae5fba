//! The entries of a log.
ghost use Rattle.std.specs.Prelude.{◌≡◌, List};
ghost use Rattle.hs_texts.specs.Pieces.{Piece};
ghost use Rattle.text_laws.specs.Parsers.{done, next};
ghost use Rattle.plan_text.specs.Answers.{Keeps};
ghost use Rattle.log_laws.specs.LogGrammar.{stale_entry};
ghost use Rattle.journal_read.specs.LogReading.{timed_at, handover_at, miss_at, stale_at, fire_at, report_at, pass_at, late_at, early_at, broken_at, entry_at, is_entry};

use crate::parts::{bound, bound_of, horizon_of, token_of};
use hs_texts::WrittenExtension;
use log_laws::{WrittenDeed, WrittenEntry, WrittenMiss};
use plan_text::{PlanReader, Stop, WrittenPlan};
use std::alloc::Global;

/// Reads the time of a deed.
#[tactic(auto, unfolding(crate::specs::LogReading::timed_at))]
fn timed(reader: &mut PlanReader, deed: WrittenDeed) -> Result<WrittenEntry, Stop>
    ensures { Keeps result reader.new (timed_at deed reader.old) }
{
    reader.keyword(b"at")?;
    let at = reader.number()?;
    Ok(WrittenEntry { at, deed })
}

/// Reads a `handover` entry.
#[tactic(auto, unfolding(crate::specs::LogReading::handover_at, crate::specs::LogReading::handover_number_at, crate::specs::LogReading::handover_back_at, crate::specs::LogReading::handed_at))]
fn handover(
    reader: &mut PlanReader,
    alloc: Global,
    plan: &WrittenPlan,
) -> Result<WrittenEntry, Stop>
    ensures { Keeps result reader.new (handover_at plan.now.mission plan.now.extensions reader.old) }
{
    reader.keyword(b"handover")?;
    let base = reader.one_more()?;
    reader.keyword(b"at")?;
    let at = reader.number()?;
    reader.keyword(b"groups")?;
    let groups = reader.count()?;
    reader.keyword(b"edges")?;
    let edges = reader.count()?;
    let body = reader.body(alloc, plan)?;
    let extension = WrittenExtension { base, body };
    let deed = WrittenDeed::Handover {
        extension,
        groups,
        edges,
    };
    Ok(WrittenEntry { at, deed })
}

/// Reads a bound, the times that break it, and the body of the extension that has it.
#[tactic(auto, unfolding(crate::specs::LogReading::miss_at, crate::specs::LogReading::missed_at))]
fn miss(reader: &mut PlanReader, alloc: Global, plan: &WrittenPlan) -> Result<WrittenMiss, Stop>
    ensures { Keeps result reader.new (miss_at plan.now.mission plan.now.extensions reader.old) }
{
    let bound = bound(reader, alloc)?;
    reader.keyword(b"times")?;
    let from_time = reader.number()?;
    let to_time = reader.number()?;
    let body = reader.body(alloc, plan)?;
    Ok(WrittenMiss {
        bound,
        from_time,
        to_time,
        body,
    })
}

/// The entry of a plan that came too late, where both points of the bound, which was read with so
/// many pieces, are points of the plan with the body.
fn stale_of(
    plan: &WrittenPlan,
    base: u32,
    at: i64,
    miss: WrittenMiss,
    size: u32,
) -> Result<WrittenEntry, Stop>
    ensures { (rest : List Piece) → Keeps result rest (done (stale_entry plan.now.mission plan.now.extensions base at (record { value = miss; size = size })) rest) }
{
    if !plan.has_with(&miss.body, &miss.bound.from) {
        return Err(Stop::Pieces(size));
    }
    if !plan.has_with(&miss.body, &miss.bound.to) {
        let front = miss.bound.from.size() + 1;
        return Err(Stop::Pieces(size.saturating_sub(front)));
    }
    let WrittenMiss {
        bound,
        from_time,
        to_time,
        body,
    } = miss;
    let deed = WrittenDeed::Stale {
        extension: WrittenExtension { base, body },
        bound,
        from_time,
        to_time,
    };
    Ok(WrittenEntry { at, deed })
}

/// Reads a `stale` entry.
#[tactic(auto, unfolding(crate::specs::LogReading::stale_at, crate::specs::LogReading::stale_number_at, crate::specs::LogReading::stale_back_at, crate::specs::LogReading::stale_end_at, crate::specs::LogReading::counted_at))]
fn stale(reader: &mut PlanReader, alloc: Global, plan: &WrittenPlan) -> Result<WrittenEntry, Stop>
    ensures { Keeps result reader.new (stale_at plan.now.mission plan.now.extensions reader.old) }
{
    reader.keyword(b"stale")?;
    let base = reader.one_more()?;
    reader.keyword(b"at")?;
    let at = reader.number()?;
    reader.keyword(b"bound")?;
    let before = reader.left();
    let miss = miss(reader, alloc, plan)?;
    let Ok(size) = u32::try_from(before - reader.left()) else {
        return Err(Stop::Memory);
    };
    stale_of(plan, base, at, miss, size)
}

/// Reads a `fire` entry.
#[tactic(auto, unfolding(crate::specs::LogReading::fire_at))]
fn fire(reader: &mut PlanReader, alloc: Global, plan: &WrittenPlan) -> Result<WrittenEntry, Stop>
    ensures { Keeps result reader.new (fire_at plan.now.mission plan.now.extensions reader.old) }
{
    reader.keyword(b"fire")?;
    let point = token_of(reader, alloc, plan)?;
    timed(reader, WrittenDeed::Fire(point))
}

/// Reads a `report` entry.
#[tactic(auto, unfolding(crate::specs::LogReading::report_at))]
fn report(reader: &mut PlanReader, alloc: Global, plan: &WrittenPlan) -> Result<WrittenEntry, Stop>
    ensures { Keeps result reader.new (report_at plan.now.mission plan.now.extensions reader.old) }
{
    reader.keyword(b"report")?;
    let point = token_of(reader, alloc, plan)?;
    timed(reader, WrittenDeed::Report(point))
}

/// Reads a `horizon` entry.
#[tactic(auto, unfolding(crate::specs::LogReading::pass_at))]
fn pass(reader: &mut PlanReader, plan: &WrittenPlan) -> Result<WrittenEntry, Stop>
    ensures { Keeps result reader.new (pass_at plan.now.mission plan.now.extensions reader.old) }
{
    reader.keyword(b"horizon")?;
    let point = horizon_of(reader, plan)?;
    timed(reader, WrittenDeed::Fire(point))
}

/// Reads a `late` entry.
#[tactic(auto, unfolding(crate::specs::LogReading::late_at))]
fn late(reader: &mut PlanReader, alloc: Global, plan: &WrittenPlan) -> Result<WrittenEntry, Stop>
    ensures { Keeps result reader.new (late_at plan.now.mission plan.now.extensions reader.old) }
{
    reader.keyword(b"late")?;
    let bound = bound_of(reader, alloc, plan)?;
    timed(reader, WrittenDeed::Late(bound))
}

/// Reads an `early` entry.
#[tactic(auto, unfolding(crate::specs::LogReading::early_at))]
fn early(reader: &mut PlanReader, alloc: Global, plan: &WrittenPlan) -> Result<WrittenEntry, Stop>
    ensures { Keeps result reader.new (early_at plan.now.mission plan.now.extensions reader.old) }
{
    reader.keyword(b"early")?;
    let bound = bound_of(reader, alloc, plan)?;
    timed(reader, WrittenDeed::Early(bound))
}

/// Reads a `broken` entry.
#[tactic(auto, unfolding(crate::specs::LogReading::broken_at, crate::specs::LogReading::any_name_at))]
fn broken(reader: &mut PlanReader, alloc: Global) -> Result<WrittenEntry, Stop>
    ensures { Keeps result reader.new (broken_at reader.old) }
{
    reader.keyword(b"broken")?;
    let name = reader.name(alloc)?;
    timed(reader, WrittenDeed::Broken(name))
}

/// Whether an entry begins with the next piece.
pub fn is_at_entry(reader: &PlanReader) -> bool
    ensures { result ≡ is_entry (next reader.now) }
{
    reader.is_at(b"handover")
        || reader.is_at(b"stale")
        || reader.is_at(b"fire")
        || reader.is_at(b"report")
        || reader.is_at(b"horizon")
        || reader.is_at(b"late")
        || reader.is_at(b"early")
        || reader.is_at(b"broken")
}

/// Reads an entry behind those that handed over the plan.
#[tactic(auto, unfolding(crate::specs::LogReading::entry_at))]
pub fn entry(
    reader: &mut PlanReader,
    alloc: Global,
    plan: &WrittenPlan,
) -> Result<WrittenEntry, Stop>
    ensures { Keeps result reader.new (entry_at plan.now.mission plan.now.extensions reader.old) }
{
    if reader.is_at(b"handover") {
        return handover(reader, alloc, plan);
    }
    if reader.is_at(b"stale") {
        return stale(reader, alloc, plan);
    }
    if reader.is_at(b"fire") {
        return fire(reader, alloc, plan);
    }
    if reader.is_at(b"report") {
        return report(reader, alloc, plan);
    }
    if reader.is_at(b"horizon") {
        return pass(reader, plan);
    }
    if reader.is_at(b"late") {
        return late(reader, alloc, plan);
    }
    if reader.is_at(b"early") {
        return early(reader, alloc, plan);
    }
    broken(reader, alloc)
}
