use hs_base::Kind;

/// A token of a partial plan with the numbers of its points. The point that ends it is its own and
/// names it; the one that starts it may be another token's end.
#[derive(Clone, Copy, Debug, PartialEq, Eq)]
pub struct Held {
    pub kind: Kind,
    pub start: u32,
    pub stop: u32,
}

/// A token in its row: joined to the one before it, or behind a gap.
#[derive(Clone, Copy, Debug, PartialEq, Eq)]
pub struct Cell {
    pub held: Held,
    pub joined: bool,
}
