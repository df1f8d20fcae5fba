ghost use Rattle.std.specs.Prelude.{◌≡◌};

use ddl_read::Unread;
use hs_base::Memory;

/// Why reading stopped.
#[derive(Clone, Copy, Debug, PartialEq, Eq)]
pub enum Stop {
    /// No text goes on with the next piece.
    Text,
    /// The pieces that were read last, so many, may not stand there.
    Pieces(u32),
    Memory,
}

impl From<Memory> for Stop {
    ghost use Rattle.plan_text.specs.declared.stop.Stop.TheVariants.{Memory as NoMemory};

    ghost from_gives = { λ _ stop. stop ≡ NoMemory };

    fn from(_: Memory) -> Stop {
        Stop::Memory
    }
}

impl From<Unread> for Stop {
    ghost use Rattle.plan_text.specs.Answers.{stop_of};

    ghost from_gives = { λ unread stop. stop ≡ stop_of unread };

    fn from(unread: Unread) -> Stop {
        match unread {
            Unread::Text => Stop::Text,
            Unread::Memory => Stop::Memory,
        }
    }
}
