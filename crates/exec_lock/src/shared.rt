ghost use Rattle.std.specs.Prelude.{◌≡◌};

use crate::rule::Turns;
use crate::view::SeatView;
use atomic_table::Table;
use hs_machine::Core;
use std::alloc::Global;
use std::snapshot::Snapshot;

/// A core behind a turn word: whoever has the turn has the core.
#[derive(Drop)]
pub struct Shared<X: Core> {
    pub(crate) table: Table<X, SeatView, Snapshot<X>, Turns, Global>,
    ghost sized: { (table.shared.table_id.words ≡ 1) × (table.shared.table_id.slots ≡ 1) },
}

/// The want of memory, with the core that was to be shared.
#[derive(Drop)]
pub struct Unshared<X> {
    pub core: X,
}

/// How many numbers of the first run the closing pass didn't answer for, more than 0.
#[derive(Clone, Copy, Debug, PartialEq, Eq)]
pub struct Left {
    pub away: u32,
}

/// The length of the history after a call.
#[derive(Clone, Copy, Debug, PartialEq, Eq)]
pub struct Front(pub u64);
