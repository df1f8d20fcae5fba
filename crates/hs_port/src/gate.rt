/// Where a flight stands when it passes its gate.
#[derive(Clone, Copy, Debug, PartialEq, Eq)]
pub enum Place {
    /// The planner is about to hand over the plan of this number.
    Planning(u32),
    /// The tick to this time was made.
    Ticked(i64),
}

/// What may hold up a flight's threads at known places.
pub trait Gate {
    /// Answers when the caller may go on.
    fn at(&self, place: Place);
}

/// A gate that stands open.
#[derive(Clone, Copy, Debug, PartialEq, Eq)]
pub struct NoGate;

impl NoGate {
    /// The open gate.
    pub fn new() -> NoGate {
        NoGate
    }
}

impl Gate for NoGate {
    fn at(&self, _place: Place) {}
}
