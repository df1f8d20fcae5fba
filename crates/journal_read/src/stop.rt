//! The line in which a log stops.
ghost use Rattle.std.specs.Prelude.{◌↔◌, ℤ, IsTrue, MatchOption};
ghost use Rattle.ddl_read.specs.Spelled.{spellings};
ghost use Rattle.log_laws.specs.LogText.{phase_text};
ghost use Rattle.journal_read.specs.Stops.{EndsWithStop, IsNumberAt, IsWordAt};

use ddl_read::{PieceKind, Pieces};
use hs_machine::Phase;

/// Where an executive stopped, and when, in ticks.
#[derive(Clone, Copy, Debug, PartialEq, Eq)]
pub struct Stop {
    pub phase: Phase,
    pub at: i64,
}

/// Whether the piece of that number is this word.
fn is_word_at(pieces: &Pieces, i: u32, word: &[u8]) -> bool
    ensures { IsTrue result ↔ IsWordAt (spellings pieces.now.bytes pieces.now.pieces) i word.now }
{
    pieces.reader(i).is_at(word)
}

/// The number that the piece of that number is.
fn number_at(pieces: &Pieces, i: u32) -> Option<i64>
    ensures { MatchOption result ((n : ℤ) → IsNumberAt (spellings pieces.now.bytes pieces.now.pieces) i n → ⊥) (IsNumberAt (spellings pieces.now.bytes pieces.now.pieces) i) }
{
    let Some(piece) = pieces.as_slice().get(i as usize) else {
        return None;
    };
    match piece.kind {
        PieceKind::Number(number) => Some(number),
        _ => None,
    }
}

/// The phase whose word the piece of that number is.
fn phase_at(pieces: &Pieces, i: u32) -> Option<Phase>
    ensures { MatchOption result ((p : Phase) → IsWordAt (spellings pieces.now.bytes pieces.now.pieces) i (phase_text p) → ⊥) (λ p. IsWordAt (spellings pieces.now.bytes pieces.now.pieces) i (phase_text p)) }
{
    if is_word_at(pieces, i, b"waiting") {
        return Some(Phase::Waiting);
    }
    if is_word_at(pieces, i, b"running") {
        return Some(Phase::Running);
    }
    if is_word_at(pieces, i, b"failed") {
        return Some(Phase::Failed);
    }
    if is_word_at(pieces, i, b"ended") {
        return Some(Phase::Ended);
    }
    None
}

/// The phase and the tick of the `stop` line with which the pieces end; none where they end
/// otherwise. It takes no memory.
pub fn read_stop(pieces: &Pieces) -> Option<Stop>
    ensures { MatchOption result ((s : Stop) → EndsWithStop (spellings pieces.now.bytes pieces.now.pieces) s → ⊥) (EndsWithStop (spellings pieces.now.bytes pieces.now.pieces)) }
{
    let Some(first) = pieces.count().checked_sub(4) else {
        return None;
    };
    if !is_word_at(pieces, first, b"stop") || !is_word_at(pieces, first + 2, b"at") {
        return None;
    }
    let Some(phase) = phase_at(pieces, first + 1) else {
        return None;
    };
    let Some(at) = number_at(pieces, first + 3) else {
        return None;
    };
    Some(Stop { phase, at })
}
