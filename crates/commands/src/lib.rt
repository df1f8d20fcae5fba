//! What each command makes of an input: a status, and the text that is written with it.
#![tactic(auto)]

mod checking;
mod input;
mod laws;
mod outcome;
mod planning;
mod printing;
mod simulation;
mod status;
mod telling;

pub use checking::check;
pub use laws::{
    a_checked_plan_is_sound, a_faulty_plan_is_told_its_fault, a_mission_alone_is_run,
    a_mission_is_run_by_its_plan, a_plan_has_one_first_flaw, a_run_with_its_plans_is_done,
    an_accepted_mission_is_printed, what_a_search_finds_is_told,
};
pub use outcome::Outcome;
pub use planning::{net, plan};
pub use printing::print;
pub use simulation::sim;
pub use status::Status;
