//! One core that several passes share, by turns.
#![tactic(auto)]

mod calls;
mod pass;
mod rule;
mod shared;
mod steps;
mod view;

pub use pass::Pass;
pub use shared::{Front, Left, Shared, Unshared};

#[cfg(test)]
mod tests;
