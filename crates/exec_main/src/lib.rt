//! The top call: reads the input, does what the words ask for, and writes the output.
#![tactic(auto)]

mod laws;
mod streams;
mod top;

pub use laws::{
    accepted_missions_are_printed, checked_plans_are_told, faulty_plans_are_told_their_faults,
    first_plans_are_told, missions_alone_are_run, missions_are_run_by_their_plans,
    networks_are_told,
};
pub use top::ground;
