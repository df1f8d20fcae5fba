//! Rigid groups of a network's points.
#![tactic(auto)]

mod groups;
mod pairs;

pub use groups::contract;
