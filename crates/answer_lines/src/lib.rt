//! The lines with which commands answer: refusals, faults of plans, and how a run ended.
#![tactic(auto)]

mod closing;
mod faults;
mod lines;
mod refusals;

pub use closing::{push_budget, push_checked, push_drill, push_no_plan, push_not_one};
pub use faults::{fault_line, push_fault};
pub use refusals::{push_refusal, refusal_line};
