use crate::Held;

/// The token that serves the need of that number of a token.
#[derive(Clone, Copy, Debug, PartialEq, Eq)]
pub struct Backing {
    pub token: Held,
    pub need: u32,
    pub by: Held,
}

/// A need that is left to a later plan, by the end of its token.
#[derive(Clone, Copy, Debug, PartialEq, Eq)]
pub struct Deferral {
    pub stop: u32,
    pub need: u32,
}
