ghost use Rattle.std.specs.Prelude.{◌≡◌, ◌⊎◌, ◌↔◌, false, IsTrue, IsErr, OnOk, OnErr};
ghost use Rattle.hs_port.specs.Causes.{HasCause};
ghost use Rattle.hs_port.specs.Calls.{IsToFail, answered, failed, uncalled};

use crate::Failed;
use hs_base::List;

/// The calls of an object in memory: the numbers, from 0, of those that are to fail, how many were
/// made, and how many failed.
#[derive(Debug, Drop)]
pub struct Failing {
    pub fail: List<u64>,
    pub calls: u64,
    pub faults: u64,
}

impl Failing {
    /// No call made yet; `fail` has the numbers of those that are to fail.
    pub fn begin(fail: List<u64>) -> Failing
        ensures { result ≡ uncalled fail }
    {
        Failing {
            fail,
            calls: 0,
            faults: 0,
        }
    }

    /// Makes the next call, which fails where it is to fail or there is no room for it.
    pub fn call(&mut self, has_room: bool) -> Result<(), Failed>
        ensures cause { HasCause self.old.faults self.new.faults result }
        ensures fails { IsErr result ↔ (IsToFail self.old ⊎ (has_room ≡ false)) }
        ensures room { OnOk result (IsTrue has_room) }
        ensures ok { OnOk result (self.new ≡ answered self.old) }
        ensures err { OnErr result (self.new ≡ failed self.old) }
    {
        let fails = self.fail.as_slice().contains(&self.calls) || !has_room;
        self.calls = self.calls.saturating_add(1);
        if fails {
            self.faults = self.faults.saturating_add(1);
            return Err(Failed);
        }
        Ok(())
    }
}
