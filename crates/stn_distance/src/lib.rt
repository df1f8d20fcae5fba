//! Schedules and distances of simple temporal networks.
#![tactic(auto)]

mod broken;
mod chain;
mod closure;
mod column;
mod dist;
mod folding;
mod lowering;
mod nearest;
mod rows;
mod search;
mod trace;
mod why;

pub use broken::Broken;
pub use chain::path;
pub use closure::{ROWS, close, close_fixed};
pub use dist::Dist;
pub use search::{POINTS, solve, solve_from};
pub use why::Why;
