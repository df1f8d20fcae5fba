//! Handovers: a checked plan is made ready to be executed, with all memory that this takes.
#![tactic(auto)]

mod offer;
mod preparing;

pub use offer::{Handed, Live, Offer};
pub use preparing::prepare;
