use hs_base::{Bound, List, Memory};
use std::alloc::{AllocError, AllocFailed};
use thiserror::Error;

/// Why bounds have no schedule, or no answer.
#[derive(Debug, PartialEq, Drop, Error)]
pub enum Broken {
    /// Bounds of the list that lead from a point back to it and sum below 0: no schedule keeps
    /// them all. Each ends where the next begins, and no two begin at the same point.
    #[error("bounds that lead back to their point sum below 0")]
    Cycle(List<Bound>),
    #[error("no memory is left")]
    Memory,
}

impl From<Memory> for Broken {
    ghost use Rattle.std.specs.Prelude.{◌≡◌};
    ghost use Rattle.stn_distance.specs.declared.broken.Broken.TheVariants.{Memory as NoMemory};

    ghost from_gives = { λ _ broken. broken ≡ NoMemory };

    fn from(_: Memory) -> Broken {
        Broken::Memory
    }
}

impl From<AllocError> for Broken {
    ghost use Rattle.std.specs.Prelude.{◌≡◌};
    ghost use Rattle.stn_distance.specs.declared.broken.Broken.TheVariants.{Memory as NoMemory};

    ghost from_gives = { λ _ broken. broken ≡ NoMemory };

    fn from(_: AllocError) -> Broken {
        Broken::Memory
    }
}

impl<T: Drop> From<AllocFailed<T>> for Broken {
    ghost use Rattle.std.specs.Prelude.{◌≡◌};
    ghost use Rattle.stn_distance.specs.declared.broken.Broken.TheVariants.{Memory as NoMemory};

    ghost from_gives = { λ _ broken. broken ≡ NoMemory };

    fn from(_: AllocFailed<T>) -> Broken {
        Broken::Memory
    }
}
