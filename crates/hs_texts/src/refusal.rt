ghost use Rattle.std.specs.Prelude.{◌≡◌};

use hs_base::{Memory, Name};
use thiserror::Error;

/// Why an input was refused. Places are byte offsets from the input's beginning; items count from
/// 0 in the order of the text.
#[derive(Debug, PartialEq, Drop, Error)]
pub enum Refusal {
    #[error("no valid UTF-8 at byte {at}")]
    NotUtf8 { at: u32 },
    #[error("no piece begins with the character at byte {at}")]
    Char { at: u32 },
    #[error("no sentence goes on with the piece at byte {at}")]
    Expected { at: u32 },
    #[error("the number at byte {at} is too large")]
    Number { at: u32 },
    #[error("the text ends before byte {at}")]
    Trailing { at: u32 },
    #[error("a name stands twice")]
    Twice { name: Name },
    #[error("a name is unknown")]
    Unknown { name: Name },
    #[error("the limits of range {item} are exchanged or too low")]
    Range { item: u32 },
    #[error("limit {which} is passed")]
    Limit { which: u32 },
    #[error("a variable has no value to begin with")]
    NoBegin { name: Name },
    #[error("horizon {item} isn't later than the one before")]
    Horizons { item: u32 },
    #[error("need {item} asks for a token of its own variable")]
    SameVar { item: u32 },
    #[error("two choices of need {item} ask for one kind")]
    SameBy { item: u32 },
    #[error("no memory is left")]
    Memory,
}

impl From<Memory> for Refusal {
    ghost use Rattle.hs_texts.specs.declared.refusal.Refusal.TheVariants.{Memory as NoMemory};

    ghost from_gives = { λ _ refusal. refusal ≡ NoMemory };

    fn from(_: Memory) -> Refusal {
        Refusal::Memory
    }
}
