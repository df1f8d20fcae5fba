ghost use Rattle.std.specs.Prelude.{◌≡◌, ◌⊎◌, ◌↔◌, ◌<◌, [], Some, length, min, IsErr, IfOk, OnErr};
ghost use Rattle.hs_port.specs.Causes.{HasCause};
ghost use Rattle.hs_port.specs.Streams.{GoesOn};
ghost use Rattle.hs_port.specs.Calls.{IsToFail, failed, uncalled};
ghost use Rattle.hs_port.specs.Forms.{written_by};

use crate::failing::Failing;
use crate::{Failed, Sink};
use hs_base::{List, Memory};
use std::alloc::Global;
use std::marker::Model;

/// A sink in memory, some of whose calls fail, as does a write for which no room is left.
#[derive(Debug, Drop)]
pub struct MemSink {
    taken: Vec<u8>,
    room: usize,
    most: u64,
    calls: Failing,
}

impl Model for MemSink {
    ghost use Rattle.std.specs.Prelude.{◌+◌, ◌<◌, ◌≤◌, vec_len, vec_capacity};
    ghost use Rattle.hs_port.specs.Forms.{Writing};

    ghost Value = { Writing };

    ghost view = { λ s. record {
      taken = s.taken.items;
      room = s.room;
      most = s.most;
      calls = s.calls;
    } };

    ghost invariant = { λ s. (0 < s.most) × (s.room + vec_len s.taken ≤ vec_capacity s.taken) };
}

impl MemSink {
    /// A sink with room for `room` bytes, which takes at most `most` in a call. `fail` has the
    /// numbers, from 0, of the calls that are to fail.
    pub fn begin(alloc: Global, room: u64, most: u64, fail: List<u64>) -> Result<MemSink, Memory>
        requires { 0 < most }
        ensures { IfOk result (λ s. s ≡ record {
          taken = [];
          room = room;
          most = most;
          calls = uncalled fail;
        }) }
    {
        Ok(MemSink {
            taken: Vec::with_capacity(alloc, room as usize)?,
            room: room as usize,
            most,
            calls: Failing::begin(fail),
        })
    }

    /// The bytes taken.
    pub fn taken(&self) -> &[u8]
        ensures { result.now ≡ self.now.taken }
    {
        self.taken.as_slice()
    }

    /// How many faults were counted.
    pub fn count(&self) -> u64
        ensures { result ≡ self.now.calls.faults }
    {
        self.calls.faults
    }
}

impl Sink for MemSink {
    ghost taken = { λ s. Some s.taken };

    ghost faults = { λ s. s.calls.faults };

    fn write(&mut self, piece: &[u8]) -> Result<usize, Failed>
        ensures cause { HasCause self.old.calls.faults self.new.calls.faults result }
        ensures fails { IsErr result
            ↔ (IsToFail self.old.calls ⊎ ((self.old.room ≡ 0) × (0 < length piece.now))) }
        ensures count { IfOk result (λ n. n ≡ min (length piece.now) (min self.old.room self.old.most)) }
        ensures moves { GoesOn result piece.now }
        ensures ok { IfOk result (λ n. self.new ≡ written_by n piece.now self.old) }
        ensures err { OnErr result (self.new ≡ record self.old { calls = failed self.old.calls }) }
    {
        self.calls.call(self.room > 0 || piece.is_empty())?;
        let n = piece.len().min(self.room).min(self.most as usize);
        self.taken.extend_from_slice(&piece[..n]).unwrap();
        self.room -= n;
        Ok(n)
    }
}
