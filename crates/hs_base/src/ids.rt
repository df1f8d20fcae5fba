use crate::{Copies, Memory, Same};
use std::alloc::Global;

/// A time point of a plan, by number; number 0 is the origin, Z.
#[derive(Clone, Copy, Debug, PartialEq, Eq, PartialOrd, Ord, Hash)]
pub struct PointId(pub u32);

/// A state variable of a mission, by number.
#[derive(Clone, Copy, Debug, PartialEq, Eq, PartialOrd, Ord, Hash)]
pub struct SvId(pub u32);

/// A value of a state variable, by number.
#[derive(Clone, Copy, Debug, PartialEq, Eq, PartialOrd, Ord, Hash)]
pub struct ValId(pub u32);

/// A word of a mission's scripts, by number; number 0 is `done`.
#[derive(Clone, Copy, Debug, PartialEq, Eq, PartialOrd, Ord, Hash)]
pub struct WordId(pub u32);

impl Copies for ValId {
    fn copy(&self, _alloc: Global) -> Result<ValId, Memory> {
        Ok(*self)
    }
}

impl Same for PointId {
    fn same(&self, other: &PointId) -> bool {
        self.0 == other.0
    }
}

impl Same for SvId {
    fn same(&self, other: &SvId) -> bool {
        self.0 == other.0
    }
}

impl Same for ValId {
    fn same(&self, other: &ValId) -> bool {
        self.0 == other.0
    }
}

impl Same for WordId {
    fn same(&self, other: &WordId) -> bool {
        self.0 == other.0
    }
}
