//! The points, tokens and fixed times of a plan by their numbers and names, grown with each
//! extension.
#![tactic(auto)]

mod entries;
mod growing;
mod index;
mod lookups;
mod placed;
mod point_name;

pub use index::PlanIndex;
pub use placed::PlacedToken;
pub use point_name::PointName;
