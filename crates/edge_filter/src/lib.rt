//! The edges between rigid groups that no edge dominates.
#![tactic(auto)]

mod candidates;
mod filter;
mod reduction;
mod reformed;
mod side;
mod weights;

pub use filter::keep;
pub use reduction::network;
pub use reformed::{Reformed, reform};
