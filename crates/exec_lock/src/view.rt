use hs_base::{List, Mission};
use hs_machine::Entry;

/// An entry with its place, which is the length of the history up to and including it.
pub struct Placed {
    pub place: u64,
    pub entry: Entry,
}

/// The numbers from `first` on, `count` of them.
pub struct Run {
    pub first: u64,
    pub count: u64,
}

/// What contracts see of a pass: its run of numbers, the runs of the passes joined into it, the
/// calls of all these numbers, and the history that it has seen. No value of it is made.
pub struct View {
    pub opening: Mission,
    pub first: u64,
    pub count: u64,
    pub joined: List<Run>,
    pub calls: List<Placed>,
    pub seen: List<Entry>,
}

/// What a seat at the table knows. No value of it is made.
pub struct SeatView {
    pub view: View,
    /// The shorter of two histories that were seen, until their order is known.
    pub told: List<Entry>,
    /// Whether it has the turn, and with it the core.
    pub holds: bool,
}
