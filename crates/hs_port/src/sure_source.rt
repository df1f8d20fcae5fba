ghost use Rattle.std.specs.Prelude.{◌≡◌, Some, length, take, drop, min, IfOk, IsOk};

use crate::copying::copy_front;
use crate::{Failed, Source};
use hs_base::List;
use std::marker::Model;

/// A source in memory that never fails; contracts see the bytes left.
#[derive(Debug, Drop)]
pub struct SureSource {
    bytes: List<u8>,
    at: usize,
}

impl Model for SureSource {
    ghost use Rattle.std.specs.Prelude.{ℕ, ◌≤◌, List, length, drop};

    ghost Value = { List ℕ };

    ghost view = { λ s. drop s.at s.bytes };

    ghost invariant = { λ s. s.at ≤ length s.bytes };
}

impl SureSource {
    /// The source of these bytes.
    pub fn begin(bytes: List<u8>) -> SureSource
        ensures { result ≡ bytes }
    {
        SureSource { bytes, at: 0 }
    }

    /// How many faults were counted: none.
    pub fn count(&self) -> u64
        ensures { result ≡ 0 }
    {
        0
    }
}

impl Source for SureSource {
    ghost left = { λ s. Some s };

    ghost faults = { λ s. 0 };

    fn read(&mut self, into: &mut [u8]) -> Result<usize, Failed>
        ensures sure { IsOk result }
        ensures count { IfOk result (λ n. n ≡ min (length self.old) (length into.old)) }
        ensures same_length { length into.new ≡ length into.old }
        ensures bytes { IfOk result (λ n. take n into.new ≡ take n self.old) }
        ensures left { IfOk result (λ n. self.new ≡ drop n self.old) }
    {
        let (_, rest) = self.bytes.as_slice().split_at(self.at);
        let n = copy_front(rest, into);
        self.at += n;
        Ok(n)
    }
}
