//! The sample missions as values, for the tests of the crates above.
#![tactic(auto)]

mod missions;

pub use missions::{camera, camera_extension, smallest, smallest_extension};
