use crate::Same;

/// The whole ticks from `low` to `high`, both among them.
#[derive(Clone, Copy, Debug, PartialEq, Eq)]
pub struct Range {
    pub low: i64,
    pub high: i64,
}

impl Same for Range {
    fn same(&self, other: &Range) -> bool {
        self.low == other.low && self.high == other.high
    }
}
