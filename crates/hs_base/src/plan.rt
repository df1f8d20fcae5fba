use crate::{Copies, Kind, List, Memory, PointId, Same, SvId};
use std::alloc::Global;

/// The time of a point, in ticks.
#[derive(Clone, Copy, Debug, PartialEq, Eq)]
pub struct Time {
    pub point: PointId,
    pub at: i64,
}

impl Copies for Time {
    fn copy(&self, _alloc: Global) -> Result<Time, Memory> {
        Ok(*self)
    }
}

impl Same for Time {
    fn same(&self, other: &Time) -> bool {
        self.point.same(&other.point) && self.at == other.at
    }
}

/// A token of a plan, by its place on its timeline; places count from 0 through all extensions.
#[derive(Clone, Copy, Debug, PartialEq, Eq)]
pub struct TokenRef {
    pub sv: SvId,
    pub place: u32,
}

impl Copies for TokenRef {
    fn copy(&self, _alloc: Global) -> Result<TokenRef, Memory> {
        Ok(*self)
    }
}

impl Same for TokenRef {
    fn same(&self, other: &TokenRef) -> bool {
        self.sv.same(&other.sv) && self.place == other.place
    }
}

/// The token that serves a need of a token. `need` counts the needs of the token's kind from 0.
#[derive(Clone, Copy, Debug, PartialEq, Eq)]
pub struct Support {
    pub token: TokenRef,
    pub need: u32,
    pub by: TokenRef,
}

impl Copies for Support {
    fn copy(&self, _alloc: Global) -> Result<Support, Memory> {
        Ok(*self)
    }
}

impl Same for Support {
    fn same(&self, other: &Support) -> bool {
        self.token.same(&other.token) && self.need == other.need && self.by.same(&other.by)
    }
}

/// What the planning of one horizon adds to a plan of `base` extensions: new tokens, the tokens
/// that serve needs and goals, and what was executed already at the tick `since`.
#[derive(Debug, PartialEq, Drop)]
pub struct Extension {
    pub base: u32,
    pub since: i64,
    pub fixed: List<Time>,
    pub tokens: List<Kind>,
    pub supports: List<Support>,
    pub goals: List<TokenRef>,
}

impl Copies for Extension {
    fn copy(&self, alloc: Global) -> Result<Extension, Memory> {
        Ok(Extension {
            base: self.base,
            since: self.since,
            fixed: self.fixed.copy(alloc)?,
            tokens: self.tokens.copy(alloc)?,
            supports: self.supports.copy(alloc)?,
            goals: self.goals.copy(alloc)?,
        })
    }
}

impl Same for Extension {
    fn same(&self, other: &Extension) -> bool {
        self.base == other.base
            && self.since == other.since
            && self.fixed.same(&other.fixed)
            && self.tokens.same(&other.tokens)
            && self.supports.same(&other.supports)
            && self.goals.same(&other.goals)
    }
}

/// A plan: one extension for each horizon that was planned.
#[derive(Debug, PartialEq, Drop)]
pub struct Plan {
    pub extensions: List<Extension>,
}

impl Copies for Plan {
    fn copy(&self, alloc: Global) -> Result<Plan, Memory> {
        Ok(Plan {
            extensions: self.extensions.copy(alloc)?,
        })
    }
}

impl Same for Plan {
    fn same(&self, other: &Plan) -> bool {
        self.extensions.same(&other.extensions)
    }
}
