//! Checked plans: plans whose every extension keeps the rules with those before it.
#![tactic(auto)]

mod checked_plan;
mod checker;
mod checking;
mod claims;
mod filter;
mod fixed;
mod goals;
mod laws;
mod limits;
mod needs;
mod order;
mod reasons;
mod rules;
mod schedule;
mod services;
mod snapshot;
mod supports;
mod tokens;

pub use checked_plan::CheckedPlan;
pub use checker::Checker;
pub use checking::check;
pub use filter::{AllPlans, Filter};
pub use laws::{
    schedules_of_a_checked_plan_make_legal_timelines, schedules_of_a_checked_plan_restrict,
};
pub use reasons::reason;
pub use snapshot::Snapshot;
