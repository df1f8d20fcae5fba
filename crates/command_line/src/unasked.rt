ghost use Rattle.std.specs.Prelude.{◌≡◌};

use clap::error::ErrorKind;
use hs_base::Memory;

/// Why the words gave no request.
#[derive(Clone, Copy, Debug, PartialEq, Eq)]
pub enum Unasked {
    /// The words are no use of the program.
    Usage,
    /// No memory is left.
    Memory,
}

impl From<Memory> for Unasked {
    ghost use Rattle.command_line.specs.declared.unasked.Unasked.TheVariants.{Memory as NoMemory};

    ghost from_gives = { λ _ unasked. unasked ≡ NoMemory };

    fn from(_: Memory) -> Unasked {
        Unasked::Memory
    }
}

impl From<clap::Error> for Unasked {
    ghost use Rattle.clap.specs.Words.{kind_of};
    ghost use Rattle.command_line.specs.Unasked.{unasked_by};

    ghost from_gives = { λ error unasked. unasked ≡ unasked_by (kind_of error) };

    fn from(error: clap::Error) -> Unasked {
        match error.kind() {
            ErrorKind::OutOfMemory => Unasked::Memory,
            _ => Unasked::Usage,
        }
    }
}
