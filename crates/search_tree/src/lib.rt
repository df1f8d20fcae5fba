//! Partial plans, their flaws and resolvers, and the tree that a search of plans walks: the plain
//! data, the definitions, and their laws.
#![tactic(auto)]

mod backing;
mod flaw;
mod held;
mod laws;
mod part;
mod samples;

pub use backing::{Backing, Deferral};
pub use flaw::{Flaw, Resolver};
pub use held::{Cell, Held};
pub use laws::{
    a_part_is_done_and_taken_back, a_partial_plan_has_few_points,
    a_plan_has_the_schedules_of_its_partial_plan, a_search_begins_with_a_schedule,
};
pub use part::Part;
pub use samples::{
    a_plan_is_extended_behind_a_fixed_point, a_waiting_need_takes_four_nodes,
    an_early_goal_leaves_two_nodes, the_camera_search_takes_ten_nodes,
    the_next_plan_serves_what_waited, the_second_choice_takes_seven_nodes, tokens_come_to_an_end,
};
