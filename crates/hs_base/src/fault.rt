ghost use Rattle.std.specs.Prelude.{◌≡◌};

use crate::{Bound, List, Memory, SvId};
use thiserror::Error;

/// Why a plan was refused.
#[derive(Debug, PartialEq, Drop, Error)]
pub enum Fault {
    #[error("made for a plan of {given} extensions, and there are {current}")]
    Base { given: u32, current: u32 },
    #[error("{points} free points, {tokens} new tokens are too many")]
    Limit { points: u32, tokens: u32 },
    #[error("a token may not stand at place {place}, or is missing there")]
    Order { sv: SvId, place: u32 },
    #[error("entry {number} fixes a point wrongly")]
    Fixed { number: u32 },
    #[error("support {number} is wrong")]
    WrongSupport { number: u32 },
    #[error("need {need} of the token at place {place} is not served")]
    Unsupported { sv: SvId, place: u32, need: u32 },
    #[error("goal {number} is not met, or there is no such goal")]
    Goal { number: u32 },
    #[error("the bounds have no schedule")]
    Cycle(List<Bound>),
    #[error("no memory is left")]
    Memory,
}

impl From<Memory> for Fault {
    ghost use Rattle.hs_base.specs.declared.fault.Fault.TheVariants.{Memory as NoMemory};

    ghost from_gives = { λ _ fault. fault ≡ NoMemory };

    fn from(_: Memory) -> Fault {
        Fault::Memory
    }
}
