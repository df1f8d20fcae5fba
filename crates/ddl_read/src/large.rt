ghost use Rattle.std.specs.Prelude.{◌≡◌, false, MatchOption};
ghost use Rattle.std.specs.List.{list_any};
ghost use Rattle.ddl_read.specs.Cutting.{is_too_large as is_too_large_spec, IsFirstLarge};

use crate::{Piece, PieceKind};
use hs_base::{LAST, List};

/// Whether a piece is a number that was too large to keep.
fn is_too_large(kind: PieceKind) -> bool
    ensures { result ≡ is_too_large_spec kind }
{
    match kind {
        PieceKind::Number(number) => number > LAST,
        PieceKind::Word | PieceKind::Symbol(_) => false,
    }
}

/// The place of the first number that is too large.
pub fn first_large(pieces: &List<Piece>) -> Option<u32>
    ensures { MatchOption result (list_any (λ p. is_too_large_spec p.kind) pieces.now ≡ false) (IsFirstLarge pieces.now) }
{
    'pieces: for piece in pieces.as_slice() {
        if is_too_large(piece.kind) {
            return Some(piece.place);
        }
    }
    None
}
