ghost use Rattle.std.specs.Prelude.{MatchResult};
ghost use Rattle.text_laws.specs.Refused.{OrMemory};
ghost use Rattle.journal_read.specs.LogSpelling.{LogSpells, IsLogRefusal};

use crate::naming::entries_of;
use crate::noted::Noted;
use crate::reading::read_written;
use ddl_read::Pieces;
use hs_base::{List, Mission};
use hs_texts::Refusal;
use std::alloc::Global;

/// Reads the text of a log from the piece of number `from` to the end. Refusals are the first piece
/// that no log goes on with, or the text's length where it ends too early; then the first piece
/// behind a whole log; and then the first name that the mission doesn't have. A point is one of the
/// plan that was handed over before, and those of a plan that came too late may be its own.
pub fn read(
    alloc: Global,
    mission: &Mission,
    pieces: &Pieces,
    from: u32,
) -> Result<List<Noted>, Refusal>
    ensures { MatchResult result (LogSpells mission.now pieces.now.bytes from) (OrMemory (IsLogRefusal mission.now pieces.now.bytes from)) }
{
    let written = read_written(alloc, mission, pieces, from)?;
    entries_of(alloc, mission, written.entries.as_slice())
}
