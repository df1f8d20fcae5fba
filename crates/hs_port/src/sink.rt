ghost use Rattle.std.specs.Prelude.{ℕ, List};
ghost use Rattle.std.specs.declared.option.Option.{Option};
ghost use Rattle.std.specs.Io.{WritesAtMost};
ghost use Rattle.std.specs.Io.KnownBytes.{WriteAppends};
ghost use Rattle.hs_port.specs.Causes.{HasCause};
ghost use Rattle.hs_port.specs.Streams.{GoesOn};

use crate::Failed;

/// Where bytes go.
pub trait Sink {
    /// The bytes that were taken, where it tells them.
    ghost taken: { Self → Option (List ℕ) };

    /// How often it has failed; the count stays at its greatest value.
    ghost faults: { Self → ℕ };

    /// Takes the front of `piece`, and says how much of it: at least one byte, where there is one.
    /// After `Failed`, which comes only with a fault counted, nothing was taken.
    fn write(&mut self, piece: &[u8]) -> Result<usize, Failed>
        ensures bound { WritesAtMost result piece.now }
        ensures moves { GoesOn result piece.now }
        ensures bytes { WriteAppends (taken self.old) (taken self.new) result piece.now }
        ensures cause { HasCause (faults self.old) (faults self.new) result };
}
