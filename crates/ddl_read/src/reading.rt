ghost use Rattle.std.specs.Prelude.{◌≡◌, ◌+◌, ◌≤◌, length, MatchResult};
ghost use Rattle.hs_texts.specs.MissionSpelling.{Spells, SpellsFront, IsFrontRefusal, IsReadRefusal};
ghost use Rattle.text_laws.specs.Refused.{OrMemory};

use crate::Pieces;
use crate::reader::Reader;
use crate::unread::Unread;
use hs_texts::{Ast, Refusal};
use std::alloc::Global;

/// The number of pieces before the last `left`.
fn used(pieces: &Pieces, left: usize) -> u32
    requires { left ≤ length pieces.now.pieces }
    ensures { result + left ≡ length pieces.now.pieces }
{
    pieces.count() - left as u32
}

/// Reads the mission at the front of a text's pieces, and tells how many of them it takes.
fn read_pieces(alloc: Global, pieces: &Pieces) -> Result<(Ast, u32), Refusal>
    ensures { MatchResult result (λ read. SpellsFront pieces.now.bytes read.0 read.1) (OrMemory (IsFrontRefusal pieces.now.bytes)) }
{
    let mut reader = Reader::new(pieces.text(), pieces.as_slice());
    match reader.mission(alloc) {
        Ok(ast) => Ok((ast, used(pieces, reader.left()))),
        Err(Unread::Text) => Err(Refusal::Expected {
            at: pieces.place(used(pieces, reader.left())),
        }),
        Err(Unread::Memory) => Err(Refusal::Memory),
    }
}

/// Reads a mission's text. Refusals are those of `Pieces::cut`, then the first piece that no
/// mission goes on with, or the text's length where it ends too early, and then the first piece
/// behind a whole mission.
pub fn read(alloc: Global, text: &[u8]) -> Result<Ast, Refusal>
    ensures { MatchResult result (Spells text.now) (OrMemory (IsReadRefusal text.now)) }
{
    let pieces = Pieces::cut(alloc, text)?;
    let (ast, used) = read_pieces(alloc, &pieces)?;
    if used < pieces.count() {
        return Err(Refusal::Trailing {
            at: pieces.place(used),
        });
    }
    Ok(ast)
}

/// Reads the mission at the front of a text, and tells how many pieces it takes, up to and with
/// its `end`. Refusals are those of `read` but the last.
pub fn read_front(alloc: Global, text: &[u8]) -> Result<(Ast, u32), Refusal>
    ensures { MatchResult result (λ read. SpellsFront text.now read.0 read.1) (OrMemory (IsFrontRefusal text.now)) }
{
    let pieces = Pieces::cut(alloc, text)?;
    read_pieces(alloc, &pieces)
}
