ghost use Rattle.std.specs.Prelude.{◌≡◌, ◌+◌, ◌<◌, ◌≤◌, ◌^◌, true, length, drop, slice_range, IfSome};
ghost use Rattle.hs_texts.specs.Pieces.{IsPiece, begins, bytes_of, begins_no_piece};
ghost use Rattle.ddl_read.specs.Spelled.{KeepsNumber, spelling};
ghost use Rattle.ddl_read.specs.Cutting.{IsNext};

use crate::bytes::{digits_end, gap_end, is_digit, is_letter, is_symbol, word_end};
use crate::number::number_of;
use crate::{Piece, PieceKind};
use hs_texts::Refusal;

/// The kind of the piece that begins at `at`, and where it ends; none where no piece begins there.
pub fn piece_at(text: &[u8], at: usize) -> Option<(PieceKind, usize)>
    requires { at < length text.now }
    ensures after { IfSome result (λ piece. at < piece.1) }
    ensures within { IfSome result (λ piece. piece.1 ≤ length text.now) }
    ensures longest { IfSome result
        (λ piece. IsPiece (spelling piece.0 (slice_range text.now at piece.1)) (drop piece.1 text.now)) }
    ensures bytes { IfSome result
        (λ piece. bytes_of (spelling piece.0 (slice_range text.now at piece.1)) ≡ slice_range text.now at piece.1) }
    ensures kept { IfSome result (λ piece. KeepsNumber piece.0 (slice_range text.now at piece.1)) }
    ensures none { result ≡ None → begins begins_no_piece (drop at text.now) ≡ true }
{
    let byte = text[at];
    if is_letter(byte) {
        Some((PieceKind::Word, word_end(text, at)))
    } else if is_digit(byte) {
        let end = digits_end(text, at);
        Some((PieceKind::Number(number_of(&text[at..end])), end))
    } else if is_symbol(byte) {
        Some((PieceKind::Symbol(byte), at + 1))
    } else {
        None
    }
}

/// What stands behind a gap.
#[derive(Clone, Copy, Debug, PartialEq, Eq)]
pub enum Next {
    /// A piece, and where it ends.
    Stands { piece: Piece, end: usize },
    /// A character that begins no piece.
    Bad { at: u32 },
    /// Nothing.
    End,
}

/// What stands behind the spaces and comments that begin at `from`.
pub fn next_piece(text: &[u8], from: usize) -> Next
    requires within { from ≤ length text.now }
    requires short { length text.now < 2 ^ 32 }
    ensures { IsNext text.now from result }
{
    let at = gap_end(text, from);
    if at == text.len() {
        return Next::End;
    }
    match piece_at(text, at) {
        Some((kind, end)) => Next::Stands {
            piece: Piece {
                place: at as u32,
                length: (end - at) as u32,
                kind,
            },
            end,
        },
        None => Next::Bad { at: at as u32 },
    }
}
