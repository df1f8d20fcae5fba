//! A log from its first piece to its last.
ghost use Rattle.std.specs.Prelude.{◌≡◌, IfOk};
ghost use Rattle.plan_text.specs.Answers.{Gives, Keeps};
ghost use Rattle.log_laws.specs.LogGrammar.{plan_behind as plan_behind_spec};
ghost use Rattle.journal_read.specs.LogReading.{entries_at, phase_at, log_at};

use crate::copying::Again;
use crate::entries::{entry, is_at_entry};
use hs_base::{List, Memory, Mission};
use hs_machine::Phase;
use log_laws::{WrittenDeed, WrittenEntry, WrittenLog};
use plan_text::{PlanReader, Stop, WrittenPlan};
use std::alloc::Global;

/// The plan behind an entry: a handover adds to it.
fn plan_behind<'a>(
    alloc: Global,
    plan: WrittenPlan<'a>,
    entry: &WrittenEntry,
) -> Result<WrittenPlan<'a>, Memory>
    ensures { IfOk result (λ behind. behind ≡ record { mission = plan.entry.mission; extensions = plan_behind_spec plan.entry.extensions entry.now }) }
{
    match &entry.deed {
        WrittenDeed::Handover { extension, .. } => plan.with(extension.again(alloc)?),
        _ => Ok(plan),
    }
}

/// Reads the entries of a log.
fn entries(
    reader: &mut PlanReader,
    alloc: Global,
    mission: &Mission,
) -> Result<List<WrittenEntry>, Stop>
    ensures { Keeps result reader.new (entries_at mission.now reader.old) }
{
    let mut plan = WrittenPlan::new(alloc, mission)?;
    let mut entries = List::new(alloc);
    'entries: while is_at_entry(reader) {
        let entry = entry(reader, alloc, &plan)?;
        plan = plan_behind(alloc, plan, &entry)?;
        entries.push(entry)?;
    }
    Ok(entries)
}

/// Reads the phase in which the executive stopped.
#[tactic(auto, unfolding(crate::specs::LogReading::phase_at))]
fn phase(reader: &mut PlanReader) -> Result<Phase, Stop>
    ensures { Gives result reader.new (phase_at reader.old) }
{
    if reader.is_at(b"waiting") {
        reader.keyword(b"waiting")?;
        return Ok(Phase::Waiting);
    }
    if reader.is_at(b"running") {
        reader.keyword(b"running")?;
        return Ok(Phase::Running);
    }
    if reader.is_at(b"failed") {
        reader.keyword(b"failed")?;
        return Ok(Phase::Failed);
    }
    reader.keyword(b"ended")?;
    Ok(Phase::Ended)
}

/// Reads a log.
#[tactic(auto, unfolding(crate::specs::LogReading::log_at, crate::specs::LogReading::log_back_at, crate::specs::LogReading::log_end_at))]
pub fn log(reader: &mut PlanReader, alloc: Global, mission: &Mission) -> Result<WrittenLog, Stop>
    ensures { Keeps result reader.new (log_at mission.now reader.old) }
{
    reader.keyword(b"hsts")?;
    reader.keyword(b"log")?;
    reader.exactly(1)?;
    let entries = entries(reader, alloc, mission)?;
    reader.keyword(b"stop")?;
    let phase = phase(reader)?;
    reader.keyword(b"at")?;
    let at = reader.number()?;
    Ok(WrittenLog { entries, phase, at })
}
