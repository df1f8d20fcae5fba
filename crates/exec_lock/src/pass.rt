use crate::view::SeatView;
use atomic_table::Badge;
use std::marker::Model;

/// What a thread calls a shared core with: a run of numbers, and what was seen of the history.
#[derive(Drop)]
pub struct Pass {
    pub(crate) badge: Badge<SeatView>,
    pub(crate) first: u32,
    pub(crate) count: u32,
    /// How many numbers it answers for, those of the passes joined into it among them.
    pub(crate) answered: u32,
}

impl Model for Pass {
    ghost use Rattle.exec_lock.specs.Passes.{Held};

    ghost Value = { Held };

    ghost use Rattle.exec_lock.specs.PassFields.{held, IsPass};

    ghost view = { held };

    ghost invariant = { IsPass };
}

ghost use Rattle.std.specs.Prelude.{◌≡◌, ◌<◌};

impl Pass {
    /// The length of its run, from 1 to 4,294,967,295.
    pub fn numbers(&self) -> u32
        ensures count { result ≡ self.now.view.count }
        ensures some { 0 < result }
    {
        self.count
    }
}
