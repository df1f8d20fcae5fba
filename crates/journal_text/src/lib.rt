//! The texts of histories.
#![tactic(auto)]

mod deeds;
mod journal;
mod phases;
mod progress;
mod reasons;

pub use journal::write;
pub use reasons::write_why;
