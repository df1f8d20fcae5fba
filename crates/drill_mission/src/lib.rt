//! The drill: a mission of any size, whose goals are drawn from a seed; and the words of a seed.
#![tactic(auto)]

mod draws;
mod laws;
mod missions;

pub use draws::Draws;
pub use laws::{a_drill_is_a_mission, words_follow_one_another};
pub use missions::drill;
