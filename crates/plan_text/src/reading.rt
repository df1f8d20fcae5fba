ghost use Rattle.std.specs.Prelude.{◌≡◌, ◌-◌, ◌≤◌, ◌<◌, ◌^◌, length, map, IfOk, MatchResult};
ghost use Rattle.hs_texts.specs.Pieces.{place_in};
ghost use Rattle.text_laws.specs.Refused.{OrMemory};
ghost use Rattle.ddl_read.specs.Spelled.{placed};
ghost use Rattle.hs_texts.specs.PlanSpelling.{IsPlanText, IsTextRefusal};
ghost use Rattle.hs_base.specs.declared.limits.TheConstants.{TEXT_BYTES};
ghost use Rattle.plan_text.specs.Naming.{point_count};

use crate::reader::PlanReader;
use crate::stop::Stop;
use ddl_read::Pieces;
use hs_base::{List, Mission};
use hs_texts::{Refusal, WrittenExtension};
use std::alloc::Global;

/// The place of the piece before the last `left` of so many pieces, or the text's length where none
/// is left.
pub fn place_before(pieces: &Pieces, count: usize, left: usize) -> u32
    requires { (left ≤ count) × (count < 2 ^ 32) }
    ensures { result ≡ place_in (length pieces.now.bytes) (map (placed pieces.now.bytes) pieces.now.pieces) (count - left) }
{
    pieces.place((count - left) as u32)
}

/// Reads a written plan from a piece on, to the end of the text. It has no more points than a text
/// may have bytes.
pub fn read_written(
    alloc: Global,
    mission: &Mission,
    pieces: &Pieces,
    from: u32,
) -> Result<List<WrittenExtension>, Refusal>
    ensures text { MatchResult result (IsPlanText mission.now pieces.now.bytes from) (OrMemory (IsTextRefusal mission.now pieces.now.bytes from)) }
    ensures few { IfOk result (λ written. point_count written ≤ TEXT_BYTES) }
{
    let count = pieces.as_slice().len();
    let mut reader = PlanReader::new(pieces.reader(from));
    match reader.plan(alloc, mission) {
        Ok(extensions) => {
            if reader.left() > 0 {
                return Err(Refusal::Trailing {
                    at: place_before(pieces, count, reader.left()),
                });
            }
            Ok(extensions)
        }
        Err(Stop::Text) => Err(Refusal::Expected {
            at: place_before(pieces, count, reader.left()),
        }),
        Err(Stop::Pieces(size)) => Err(Refusal::Expected {
            at: place_before(pieces, count, reader.left() + size as usize),
        }),
        Err(Stop::Memory) => Err(Refusal::Memory),
    }
}
