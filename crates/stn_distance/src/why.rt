use hs_base::{Bound, List};

/// Why a bound holds in every schedule of some bounds, or that it doesn't.
#[derive(Debug, PartialEq, Drop)]
pub enum Why {
    /// Bounds of the list that force it: they lead from its first point to its second, meet no
    /// point twice, and sum to no more than it allows.
    Chain(List<Bound>),
    /// A schedule that breaks it: a time for each point, in ticks.
    Free(List<i64>),
}
