use hs_machine::Deed;

/// An entry of a log that was read, and its time in ticks.
///
/// A log tells the numbers of groups and edges of a handover's network, and not the network: they
/// stand beside a handover, which has the empty one. Beside any other deed they are 0. Ticks are no
/// entries; they are the differences of the times.
#[derive(Debug, PartialEq, Drop)]
pub struct Noted {
    pub at: i64,
    pub what: Deed,
    pub groups: u32,
    pub edges: u32,
}
