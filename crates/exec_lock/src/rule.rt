use crate::view::SeatView;
use atomic_table::{Join, Play, Split, TableRule};
use hs_machine::Core;
use std::marker::{Brand, PhantomData};
use std::snapshot::Snapshot;

/// The rule of the table: word 0 is 0 while the core is at home in slot 0, and 1 while a pass has
/// the turn. The key is the core as it was shared.
pub struct Turns;

impl<X: Core> TableRule<X, SeatView, Snapshot<X>> for Turns {
    ghost use Rattle.exec_lock.specs.Rule.{IsKept, first_seat};

    ghost holds = { λ key. IsKept X.opening X.history key.value };

    ghost first = { λ key. first_seat (X.opening key.value) (X.history key.value) };
}

/// A try for the turn.
pub struct Take;

impl<X: Core> Play<X, SeatView> for Take {
    ghost use Rattle.exec_lock.specs.Rule.{takes_turn};

    ghost then = { takes_turn X.opening X.history };
}

/// The turn is given back.
pub struct Give;

impl<X: Core> Play<X, SeatView> for Give {
    ghost use Rattle.exec_lock.specs.Rule.{gives_turn};

    ghost then = { gives_turn X.history };
}

/// A try that is lost, which tells the order of two histories.
pub struct Learn;

impl<X: Core> Play<X, SeatView> for Learn {
    ghost use Rattle.exec_lock.specs.Rule.{learns_order};

    ghost then = { learns_order };
}

/// How many numbers are cut off.
pub trait Amount {
    ghost use Rattle.std.specs.Prelude.{ℕ};

    ghost amount: { ℕ };
}

impl Amount for Brand {
    ghost amount = { 0 };
}

/// A seat gives up the last numbers of its run to a new one.
pub struct Cut<N> {
    of: PhantomData<N>,
}

impl<N: Amount> Split<SeatView> for Cut<N> {
    ghost use Rattle.exec_lock.specs.Rule.{seat_left, seat_right};

    ghost left = { seat_left N.amount };

    ghost right = { seat_right N.amount };
}

/// A note: a seat with no number, which has seen what this one has.
pub struct TakeNote;

impl Split<SeatView> for TakeNote {
    ghost use Rattle.exec_lock.specs.Rule.{note_of};

    ghost left = { λ s. s };

    ghost right = { note_of };
}

/// A seat takes in another one, with its numbers and calls.
pub struct Merge;

impl Join<SeatView> for Merge {
    ghost use Rattle.exec_lock.specs.Rule.{seats_merged, nobody};

    ghost both = { seats_merged };

    ghost spent = { nobody };
}

/// A seat takes in a note.
pub struct Hear;

impl Join<SeatView> for Hear {
    ghost use Rattle.exec_lock.specs.Rule.{note_heard, nobody};

    ghost both = { note_heard };

    ghost spent = { nobody };
}
