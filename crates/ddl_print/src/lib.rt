//! The one text in which a mission is printed.
#![tactic(auto)]

mod horizons;
mod missions;
mod needs;
mod parts;
mod scripts;
mod values;

pub use missions::print;
