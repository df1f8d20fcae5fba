//! The points of a plan and the bounds between them.
#![tactic(auto)]

mod apart;
mod bounding;
mod items;
mod numbers;

pub use bounding::{bounds, new_bounds};
pub use numbers::{horizon_point, points};
