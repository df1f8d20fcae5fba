//! Bounds added and taken back, with a schedule that keeps them.
#![tactic(auto)]

mod cycle;
mod mark;
mod moves;
mod part;
mod raised;
mod row;
mod settle;
mod solving;
mod spread;
mod times;
mod trail;

pub use mark::Mark;
pub use part::Part;
pub use trail::Trail;
