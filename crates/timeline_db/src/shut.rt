use hs_base::{Bound, List, Memory};
use std::alloc::{AllocError, AllocFailed};
use stn_distance::Broken;
use thiserror::Error;

/// Why a part was not done.
#[derive(Debug, PartialEq, Drop, Error)]
pub enum Shut {
    /// No schedule would keep all bounds; these lead back to their point and sum below 0.
    #[error("no schedule keeps the bounds")]
    Cycle(List<Bound>),
    /// One more token would be over a limit.
    #[error("one more token is over the limits")]
    Full,
    #[error("no memory is left")]
    Memory,
}

impl From<Memory> for Shut {
    ghost use Rattle.std.specs.Prelude.{◌≡◌};
    ghost use Rattle.timeline_db.specs.declared.shut.Shut.TheVariants.{Memory as NoMemory};

    ghost from_gives = { λ _ shut. shut ≡ NoMemory };

    fn from(_: Memory) -> Shut {
        Shut::Memory
    }
}

impl From<AllocError> for Shut {
    ghost use Rattle.std.specs.Prelude.{◌≡◌};
    ghost use Rattle.timeline_db.specs.declared.shut.Shut.TheVariants.{Memory as NoMemory};

    ghost from_gives = { λ _ shut. shut ≡ NoMemory };

    fn from(_: AllocError) -> Shut {
        Shut::Memory
    }
}

impl<T: Drop> From<AllocFailed<T>> for Shut {
    ghost use Rattle.std.specs.Prelude.{◌≡◌};
    ghost use Rattle.timeline_db.specs.declared.shut.Shut.TheVariants.{Memory as NoMemory};

    ghost from_gives = { λ _ shut. shut ≡ NoMemory };

    fn from(_: AllocFailed<T>) -> Shut {
        Shut::Memory
    }
}

impl From<Broken> for Shut {
    ghost use Rattle.timeline_db.specs.Shutting.{IsShutBy};

    ghost from_gives = { λ broken shut. IsShutBy broken shut };

    fn from(broken: Broken) -> Shut {
        match broken {
            Broken::Cycle(cycle) => Shut::Cycle(cycle),
            Broken::Memory => Shut::Memory,
        }
    }
}
