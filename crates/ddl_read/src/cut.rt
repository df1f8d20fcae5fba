ghost use Rattle.std.specs.Prelude.{◌<◌, ◌^◌, length, IfOk, IfErr};
ghost use Rattle.text_laws.specs.Refused.{OrMemory};
ghost use Rattle.ddl_read.specs.Cutting.{AreAll, IsCharRefusal};

use crate::Piece;
use crate::next::{Next, next_piece};
use hs_base::List;
use hs_texts::Refusal;
use std::alloc::Global;

/// The pieces of a text.
pub fn cut_pieces(alloc: Global, text: &[u8]) -> Result<List<Piece>, Refusal>
    requires { length text.now < 2 ^ 32 }
    ensures ok { IfOk result (AreAll text.now) }
    ensures err { IfErr result (OrMemory (IsCharRefusal text.now)) }
{
    let mut pieces = List::new(alloc);
    let mut from = 0;
    'pieces: loop {
        match next_piece(text, from) {
            Next::Stands { piece, end } => {
                pieces.push(piece)?;
                from = end;
            }
            Next::Bad { at } => return Err(Refusal::Char { at }),
            Next::End => return Ok(pieces),
        }
    }
}
