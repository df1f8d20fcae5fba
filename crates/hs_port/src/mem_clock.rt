ghost use Rattle.std.specs.Prelude.{◌≡◌, ◌⊎◌, ◌↔◌, ◌+◌, ◌-◌, ◌^◌, Some, IsErr, OnOk, OnErr};
ghost use Rattle.hs_port.specs.Causes.{HasCause};
ghost use Rattle.hs_port.specs.Calls.{IsToFail, answered, failed, uncalled};

use crate::failing::Failing;
use crate::{Clock, Failed};
use hs_base::List;

/// A clock in memory, some of whose calls fail, as does a tick past the greatest `u64`.
#[derive(Debug, Drop)]
pub struct MemClock {
    ticks: u64,
    calls: Failing,
}

impl MemClock {
    /// A clock that has given no tick. `fail` has the numbers, from 0, of the calls that are to
    /// fail.
    pub fn begin(fail: List<u64>) -> MemClock
        ensures { result ≡ record { ticks = 0; calls = uncalled fail } }
    {
        MemClock {
            ticks: 0,
            calls: Failing::begin(fail),
        }
    }

    /// The number of ticks given.
    pub fn ticks(&self) -> u64
        ensures { result ≡ self.now.ticks }
    {
        self.ticks
    }

    /// How many faults were counted.
    pub fn count(&self) -> u64
        ensures { result ≡ self.now.calls.faults }
    {
        self.calls.faults
    }
}

impl Clock for MemClock {
    ghost ticks = { λ s. Some s.ticks };

    ghost faults = { λ s. s.calls.faults };

    fn tick(&mut self) -> Result<(), Failed>
        ensures cause { HasCause self.old.calls.faults self.new.calls.faults result }
        ensures fails { IsErr result ↔ (IsToFail self.old.calls ⊎ (self.old.ticks ≡ 2 ^ 64 - 1)) }
        ensures ok { OnOk result (self.new
            ≡ record { ticks = self.old.ticks + 1; calls = answered self.old.calls }) }
        ensures err { OnErr result (self.new ≡ record self.old { calls = failed self.old.calls }) }
    {
        self.calls.call(self.ticks < u64::MAX)?;
        self.ticks += 1;
        Ok(())
    }
}
