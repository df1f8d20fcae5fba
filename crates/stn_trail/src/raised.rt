use std::collections::VecDeque;

/// A point that was raised, and to when: the bounds that end at it are to be looked at, unless it
/// was raised again since.
#[derive(Clone, Copy, Debug)]
pub(crate) struct Raised {
    pub point: u32,
    pub time: i64,
}

/// Raised points, the first to be looked at first.
pub(crate) type Queue = VecDeque<Raised>;
