use hs_base::Memory;

/// Why nothing was read.
#[derive(Clone, Copy, Debug, PartialEq, Eq)]
pub enum Unread {
    /// No text goes on with the next piece.
    Text,
    Memory,
}

impl From<Memory> for Unread {
    ghost use Rattle.std.specs.Prelude.{◌≡◌};
    ghost use Rattle.ddl_read.specs.declared.unread.Unread.TheVariants.{Memory as NoMemory};

    ghost from_gives = { λ _ unread. unread ≡ NoMemory };

    fn from(_: Memory) -> Unread {
        Unread::Memory
    }
}
