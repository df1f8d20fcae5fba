ghost use Rattle.std.specs.Prelude.{◌≡◌};
ghost use Rattle.plan_search.specs.declared.unplanned.Unplanned.TheVariants.{Memory as NoMemory};

use hs_base::{List, Memory};

/// Why no plan was found.
#[derive(Debug, PartialEq, Drop)]
pub enum Unplanned {
    /// There is none.
    NoPlan,
    /// The budget ended before the node at this path.
    Budget(List<u32>),
    Memory,
}

impl From<Memory> for Unplanned {
    ghost from_gives = { λ _ why. why ≡ NoMemory };

    fn from(_: Memory) -> Unplanned {
        Unplanned::Memory
    }
}
