ghost use Rattle.std.specs.Prelude.{◌≡◌, ◌↔◌, Some, length, take, min, IsErr, IfOk, OnErr};
ghost use Rattle.hs_port.specs.Causes.{HasCause};
ghost use Rattle.hs_port.specs.Calls.{IsToFail, failed, uncalled};
ghost use Rattle.hs_port.specs.Forms.{read_by};

use crate::copying::copy_front;
use crate::failing::Failing;
use crate::{Failed, Source};
use hs_base::List;
use std::marker::Model;

/// A source in memory, some of whose calls fail.
#[derive(Debug, Drop)]
pub struct MemSource {
    bytes: List<u8>,
    at: usize,
    calls: Failing,
}

impl Model for MemSource {
    ghost use Rattle.std.specs.Prelude.{◌≤◌, length, drop};
    ghost use Rattle.hs_port.specs.Forms.{Reading};

    ghost Value = { Reading };

    ghost view = { λ s. record { left = drop s.at s.bytes; calls = s.calls } };

    ghost invariant = { λ s. s.at ≤ length s.bytes };
}

impl MemSource {
    /// The source of these bytes. `fail` has the numbers, from 0, of the calls that are to fail.
    pub fn begin(bytes: List<u8>, fail: List<u64>) -> MemSource
        ensures left { result.left ≡ bytes }
        ensures calls { result.calls ≡ uncalled fail }
    {
        MemSource {
            bytes,
            at: 0,
            calls: Failing::begin(fail),
        }
    }

    /// How many faults were counted.
    pub fn count(&self) -> u64
        ensures { result ≡ self.now.calls.faults }
    {
        self.calls.faults
    }
}

impl Source for MemSource {
    ghost left = { λ s. Some s.left };

    ghost faults = { λ s. s.calls.faults };

    fn read(&mut self, into: &mut [u8]) -> Result<usize, Failed>
        ensures cause { HasCause self.old.calls.faults self.new.calls.faults result }
        ensures fails { IsErr result ↔ IsToFail self.old.calls }
        ensures count { IfOk result (λ n. n ≡ min (length self.old.left) (length into.old)) }
        ensures same_length { length into.new ≡ length into.old }
        ensures bytes { IfOk result (λ n. take n into.new ≡ take n self.old.left) }
        ensures ok { IfOk result (λ n. self.new ≡ read_by n self.old) }
        ensures err { OnErr result (self.new ≡ record self.old { calls = failed self.old.calls }) }
    {
        self.calls.call(true)?;
        let (_, rest) = self.bytes.as_slice().split_at(self.at);
        let n = copy_front(rest, into);
        self.at += n;
        Ok(n)
    }
}
