//! Scripts of devices: what a device is told, what is awaited of it, and a simulated device.
#![tactic(auto)]

mod laws;
mod runner;
mod told;

pub use laws::{
    a_clause_is_said_word_by_word, each_token_takes_the_next_clause_or_the_last,
    the_orders_of_a_runner_are_those_of_the_steps_it_passed,
};
pub use runner::{Progress, Runner};
pub use told::Told;
