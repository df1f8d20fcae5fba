ghost use Rattle.std.specs.Prelude.{◌≡◌, None, IsOk};

use crate::{Clock, Failed};

/// The program's clock: each tick comes at once.
#[derive(Clone, Copy, Debug, PartialEq, Eq)]
pub struct PlainClock;

impl PlainClock {
    /// The program's clock.
    pub fn new() -> PlainClock {
        PlainClock
    }

    /// How many faults were counted: none.
    pub fn count(&self) -> u64
        ensures { result ≡ 0 }
    {
        0
    }
}

impl Clock for PlainClock {
    ghost ticks = { λ s. None };

    ghost faults = { λ s. 0 };

    fn tick(&mut self) -> Result<(), Failed>
        ensures sure { IsOk result }
    {
        Ok(())
    }
}
