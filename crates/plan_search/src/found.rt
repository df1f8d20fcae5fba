use hs_base::{Extension, List};

/// What a search finds.
#[derive(Debug, PartialEq, Drop)]
pub enum Found {
    /// The extension of the first finished node.
    Plan(Extension),
    /// There is none in the whole tree.
    NoPlan,
    /// The budget ended before the node at this path.
    Budget(List<u32>),
}
