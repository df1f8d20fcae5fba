//! Laws of simulated runs: what an executive owes its devices, how they stand at each of its moments,
//! from where later plans come, and what the whole run is.
#![tactic(auto)]

mod devices;
mod handovers;
mod lines;
mod runs;
mod scripts;
mod steps;

pub use devices::{
    a_device_does_what_its_line_shows, a_device_is_attended_at_the_end_of_a_run,
    what_a_device_told_stays,
};
pub use handovers::{
    a_handover_lets_no_further_point_fire, a_plan_made_now_is_not_stale,
    a_search_may_begin_at_a_snapshot,
};
pub use lines::{a_line_stays_while_its_end_is_open, only_what_a_line_shows_may_be_fired};
pub use runs::{
    a_run_of_one_plan_is_planned_in_time, a_run_that_failed_names_a_bound_that_its_plan_forces,
    a_run_that_has_ended_fired_its_horizon_last, a_run_with_its_plans_is_completed,
};
pub use scripts::a_runner_finishes_as_its_script_does;
pub use steps::{
    a_device_stands_after_a_fire, a_device_stands_after_a_handover, a_device_stands_after_a_report,
    a_device_stands_after_an_answer, a_device_stands_after_other_entries,
    a_finished_script_is_reported_or_comes_early, a_report_leaves_fewer_steps,
    a_settled_tick_is_done_or_late, an_eager_history_stays_so,
};
