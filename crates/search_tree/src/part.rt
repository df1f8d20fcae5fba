use hs_base::{SvId, TokenRef, ValId};

/// A part of a partial plan's making. Places are those at the time when it is done.
#[derive(Clone, Copy, Debug, PartialEq, Eq)]
pub enum Part {
    /// A token behind `place`, with a gap between.
    Inserted {
        sv: SvId,
        place: u32,
        value: ValId,
    },
    /// A token behind `place` and joined to it.
    Followed {
        sv: SvId,
        place: u32,
        value: ValId,
    },
    /// The gap behind `place` is closed.
    Joined {
        sv: SvId,
        place: u32,
    },
    /// No token may come behind the last one.
    Finished {
        sv: SvId,
    },
    /// A need is served by a token.
    Supported {
        token: TokenRef,
        need: u32,
        by: TokenRef,
    },
    /// A goal has its token.
    MetGoal {
        goal: u32,
        by: TokenRef,
    },
    /// A need is left to a later plan.
    Deferred {
        token: TokenRef,
        need: u32,
    },
}
