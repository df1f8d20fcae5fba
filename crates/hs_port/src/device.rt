ghost use Rattle.std.specs.Prelude.{ℕ, ℤ, ◌≤◌, List};
ghost use Rattle.std.specs.declared.option.Option.{Option};
ghost use Rattle.hs_port.specs.declared.device.Answer.{Answer};
ghost use Rattle.hs_port.specs.Causes.{HasCause};
ghost use Rattle.hs_port.specs.Told.{Stays, AsksOnce};

use crate::Failed;
use hs_base::{Memory, ValId, Var, WordId};
use std::alloc::Global;

/// What a device is told; times are ticks.
#[derive(Clone, Copy, Debug, PartialEq, Eq)]
pub enum Order {
    /// A token of this value began.
    Begin { value: ValId, now: i64 },
    /// A step of the value's script is to be done.
    Do { word: WordId, amount: i64, now: i64 },
}

/// What a device says when it is asked.
#[derive(Clone, Copy, Debug, PartialEq, Eq)]
pub enum Answer {
    Quiet,
    Said(WordId),
}

/// What carries out the values of a state variable.
pub trait Device {
    /// The times and answers of its answered polls, where it tells them.
    ghost polls: { Self → Option (List (ℤ × Answer)) };

    /// How often it has failed; the count stays at its greatest value.
    ghost faults: { Self → ℕ };

    /// Takes what it needs of its variable.
    fn load(&mut self, alloc: Global, var: &Var) -> Result<(), Memory>
        ensures polls { Stays (polls self.old) (polls self.new) }
        ensures faults { faults self.old ≤ faults self.new };

    /// Takes an order. `Failed` comes only with a fault counted.
    fn tell(&mut self, order: Order) -> Result<(), Failed>
        ensures polls { Stays (polls self.old) (polls self.new) }
        ensures cause { HasCause (faults self.old) (faults self.new) result };

    /// Asks what there is to hear at tick `now`. `Failed` comes only with a fault counted.
    fn poll(&mut self, now: i64) -> Result<Answer, Failed>
        ensures polls { AsksOnce (polls self.old) (polls self.new) now result }
        ensures cause { HasCause (faults self.old) (faults self.new) result };
}
