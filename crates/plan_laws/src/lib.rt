//! Laws of plans, over the definitions alone.
#![tactic(auto)]

mod distances;
mod faults;
mod samples;
mod schedules;
mod timelines;

pub use distances::bounds_of_a_plan_are_fit_for_distances;
pub use faults::{
    a_fault_excludes_a_checked_plan, a_negative_cycle_has_no_schedule, an_extension_has_one_fault,
};
pub use samples::{the_camera_plan_has_a_schedule, the_smallest_plan_has_a_schedule};
pub use schedules::{
    a_tight_weight_is_the_only_one, further_bounds_keep_fewer_schedules, implied_bounds_compose,
    implied_distances_are_tight, lists_and_functions_are_one_claim, schedules_restrict,
    tight_weights_keep_the_triangle,
};
pub use timelines::{
    a_schedule_keeps_lengths_and_times, a_schedule_makes_legal_timelines,
    a_schedule_makes_linked_timelines, a_schedule_spans_the_horizons,
};
