ghost use Rattle.std.specs.Prelude.{MatchResult};
ghost use Rattle.text_laws.specs.Refused.{OrMemory};
ghost use Rattle.hs_texts.specs.PlanSpelling.{PlanSpells, IsPlanRefusal};

use crate::naming::plan_of;
use crate::reading::read_written;
use ddl_read::Pieces;
use hs_base::{Mission, Plan};
use hs_texts::Refusal;
use std::alloc::Global;

/// Reads a plan's text from the piece of number `from` to the end. Refusals are the first piece
/// that no plan goes on with, or the text's length where it ends too early; then the first piece
/// behind a whole plan; and then the first name that the mission doesn't have. Goals are numbered
/// from 0 in turn, and a fixed point is one of an earlier extension.
pub fn read(alloc: Global, mission: &Mission, pieces: &Pieces, from: u32) -> Result<Plan, Refusal>
    ensures { MatchResult result (λ plan. PlanSpells mission.now pieces.now.bytes from plan.extensions) (OrMemory (IsPlanRefusal mission.now pieces.now.bytes from)) }
{
    let written = read_written(alloc, mission, pieces, from)?;
    plan_of(alloc, mission, written.as_slice())
}
