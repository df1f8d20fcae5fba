use hs_base::{SvId, TokenRef, ValId};

/// What a partial plan lacks.
#[derive(Clone, Copy, Debug, PartialEq, Eq)]
pub enum Flaw {
    /// The goal of that number has no token.
    Goal(u32),
    /// The need of that number of a token is neither served nor left to a later plan.
    Need { token: TokenRef, need: u32 },
    /// There is a gap, or an open end, behind that place.
    Gap { sv: SvId, place: u32 },
}

/// A way to resolve a flaw.
#[derive(Clone, Copy, Debug, PartialEq, Eq)]
pub enum Resolver {
    /// A token that is there serves the goal or need.
    Connect { by: TokenRef },
    /// A new token behind that place, with a gap before it, serves the goal or need.
    Insert { sv: SvId, place: u32, value: ValId },
    /// The need is left to a later plan, and its token's timeline is finished.
    Defer,
    /// The tokens on both sides of the gap are joined.
    Join,
    /// The timeline is finished.
    Finish,
    /// A new token is joined to the one before the gap or the open end.
    Follow { value: ValId },
}
