use crate::CheckedPlan;
use hs_base::{List, Time};

/// What the executive shows of itself to the planner.
#[derive(Drop)]
pub struct Snapshot {
    /// The newest plan, with its mission.
    pub plan: CheckedPlan,
    /// The tick now.
    pub since: i64,
    /// The executed points other than Z that no extension fixes yet, by point, with their ticks.
    pub fixed: List<Time>,
    /// The number of entries of the history.
    pub front: u64,
}
