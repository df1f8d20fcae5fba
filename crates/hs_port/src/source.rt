ghost use Rattle.std.specs.Prelude.{ℕ, List};
ghost use Rattle.std.specs.declared.option.Option.{Option};
ghost use Rattle.std.specs.Io.{ReadsAtMost};
ghost use Rattle.std.specs.Io.KnownBytes.{ReadConsumes};
ghost use Rattle.hs_port.specs.Causes.{HasCause};

use crate::Failed;

/// Bytes from outside.
pub trait Source {
    /// The bytes that are left, where it tells them.
    ghost left: { Self → Option (List ℕ) };

    /// How often it has failed; the count stays at its greatest value.
    ghost faults: { Self → ℕ };

    /// Moves bytes into the front of `into`, and says how many. Zero, for a buffer with room, is
    /// the end of input. After `Failed`, which comes only with a fault counted, the bytes left are
    /// as before.
    fn read(&mut self, into: &mut [u8]) -> Result<usize, Failed>
        ensures bound { ReadsAtMost result into.new }
        ensures bytes { ReadConsumes (left self.old) (left self.new) result into.new }
        ensures cause { HasCause (faults self.old) (faults self.new) result };
}
