//! Windows of rigid groups, propagated to immediate neighbours alone.
#![tactic(auto)]

mod minima;
mod neighbours;
mod places;
mod windows;

pub use minima::Minima;
pub use neighbours::Neighbour;
pub use windows::{NEVER, Windows};
