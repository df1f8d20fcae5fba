//! The history of an execution, and the definitions that contracts cite of it: the state that it
//! leaves, the schedule machine that makes it, its runs, and what scripts report.
#![tactic(auto)]

mod history;
mod kernel;

pub use history::{Deed, Entry, Phase};
pub use kernel::Core;
