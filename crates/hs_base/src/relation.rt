ghost use Rattle.std.specs.Prelude.{◌≡◌};
ghost use Rattle.hs_base.specs.Needs.{may_wait};

use crate::{Range, Same};

/// How the token that has a need lies in time to the token that serves it.
#[derive(Clone, Copy, Debug, PartialEq, Eq)]
pub enum Relation {
    /// The other token starts that many ticks after this one ends.
    Before(Range),
    /// This token starts that many ticks after the other one ends.
    After(Range),
    /// The other token starts as this one ends.
    Meets,
    /// This token starts as the other one ends.
    MetBy,
    /// The other token starts that many ticks after this one starts.
    Starts(Range),
    /// The other token ends that many ticks after this one ends.
    Ends(Range),
    /// Both start and end together.
    Equals,
    /// The other token starts that many ticks after this one starts, and ends that many before it ends.
    Contains(Range, Range),
    /// This token starts that many ticks after the other one starts, and ends that many before it ends.
    ContainedBy(Range, Range),
}

impl Relation {
    /// Whether the other token may come in a later plan.
    pub fn may_wait(&self) -> bool
        ensures { result ≡ may_wait self.now }
    {
        matches!(self, Relation::Before(_) | Relation::Meets)
    }
}

impl Same for Relation {
    fn same(&self, other: &Relation) -> bool {
        match (self, other) {
            (Relation::Before(ours), Relation::Before(theirs)) => ours.same(theirs),
            (Relation::After(ours), Relation::After(theirs)) => ours.same(theirs),
            (Relation::Meets, Relation::Meets) => true,
            (Relation::MetBy, Relation::MetBy) => true,
            (Relation::Starts(ours), Relation::Starts(theirs)) => ours.same(theirs),
            (Relation::Ends(ours), Relation::Ends(theirs)) => ours.same(theirs),
            (Relation::Equals, Relation::Equals) => true,
            (Relation::Contains(a, b), Relation::Contains(c, d)) => a.same(c) && b.same(d),
            (Relation::ContainedBy(a, b), Relation::ContainedBy(c, d)) => a.same(c) && b.same(d),
            _ => false,
        }
    }
}
