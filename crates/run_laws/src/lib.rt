//! Laws of the runs of the schedule machine, over the definitions alone.
#![tactic(auto)]

mod runs;
mod samples;

pub use runs::{
    a_plan_of_a_run_is_checked, a_run_makes_legal_timelines, each_point_is_executed_once,
    some_schedule_fits,
};
pub use samples::the_camera_run_has_its_state;
