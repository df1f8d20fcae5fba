ghost use Rattle.std.specs.Prelude.{MatchResult};
ghost use Rattle.text_laws.specs.Refused.{OrMemory};
ghost use Rattle.log_laws.specs.WritableLogs.{IsLogText};
ghost use Rattle.journal_read.specs.LogSpelling.{IsLogTextRefusal};

use crate::log::log;
use ddl_read::Pieces;
use hs_base::Mission;
use hs_texts::Refusal;
use log_laws::WrittenLog;
use plan_text::{PlanReader, Stop, place_before};
use std::alloc::Global;

/// Reads a written log from a piece on, to the end of the text.
pub fn read_written(
    alloc: Global,
    mission: &Mission,
    pieces: &Pieces,
    from: u32,
) -> Result<WrittenLog, Refusal>
    ensures { MatchResult result (IsLogText mission.now pieces.now.bytes from) (OrMemory (IsLogTextRefusal mission.now pieces.now.bytes from)) }
{
    let count = pieces.as_slice().len();
    let mut reader = PlanReader::new(pieces.reader(from));
    match log(&mut reader, alloc, mission) {
        Ok(written) => {
            if reader.left() > 0 {
                return Err(Refusal::Trailing {
                    at: place_before(pieces, count, reader.left()),
                });
            }
            Ok(written)
        }
        Err(Stop::Text) => Err(Refusal::Expected {
            at: place_before(pieces, count, reader.left()),
        }),
        Err(Stop::Pieces(size)) => Err(Refusal::Expected {
            at: place_before(pieces, count, reader.left() + size as usize),
        }),
        Err(Stop::Memory) => Err(Refusal::Memory),
    }
}
