use hs_base::Bound;

/// A part of a trail: a point that was grown, or a bound that was added.
#[derive(Clone, Copy, Debug, PartialEq, Eq)]
pub enum Part {
    Grown,
    Added(Bound),
}

/// A part, and how many moves were noted before it.
#[derive(Clone, Copy, Debug)]
pub(crate) struct Step {
    pub part: Part,
    pub since: usize,
}
