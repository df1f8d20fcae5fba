//! A simulated run by one thread: what is done at each tick, and where the run ends.
#![tactic(auto)]

mod asking;
mod attending;
mod flight;
mod polling;
mod post;
mod run;
mod settling;
mod watch;

pub use run::{Flown, Planned, sim};
