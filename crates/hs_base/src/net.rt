use crate::{Copies, List, Memory, PointId};
use std::alloc::Global;

/// The bound `t(to) - t(from) <= most` between two time points, in ticks.
#[derive(Clone, Copy, Debug, PartialEq, Eq)]
pub struct Bound {
    pub from: PointId,
    pub to: PointId,
    pub most: i64,
}

impl Copies for Bound {
    fn copy(&self, _alloc: Global) -> Result<Bound, Memory> {
        Ok(*self)
    }
}

/// A point that stands exactly `offset` ticks after the leader of its group.
#[derive(Clone, Copy, Debug, PartialEq, Eq)]
pub struct Member {
    pub point: PointId,
    pub offset: i64,
}

impl Copies for Member {
    fn copy(&self, _alloc: Global) -> Result<Member, Memory> {
        Ok(*self)
    }
}

/// A rigid group: points at fixed distances from each other. `members` are those other than the
/// leader, by point.
#[derive(Debug, PartialEq, Drop)]
pub struct Group {
    pub leader: PointId,
    pub members: List<Member>,
}

impl Copies for Group {
    fn copy(&self, alloc: Global) -> Result<Group, Memory> {
        Ok(Group {
            leader: self.leader,
            members: self.members.copy(alloc)?,
        })
    }
}

/// A dispatchable network: groups by leader, and the kept edges between leaders by `from`, then
/// `to`.
#[derive(Debug, PartialEq, Drop)]
pub struct Net {
    pub groups: List<Group>,
    pub edges: List<Bound>,
}

impl Copies for Net {
    fn copy(&self, alloc: Global) -> Result<Net, Memory> {
        Ok(Net {
            groups: self.groups.copy(alloc)?,
            edges: self.edges.copy(alloc)?,
        })
    }
}
