//! The depth-first search of a plan for the next horizon, within a budget of nodes.
#![tactic(auto)]

mod first;
mod found;
mod frames;
mod laws;
mod search_loop;
mod steps;
mod unplanned;
mod visiting;

pub use first::first_plan;
pub use found::Found;
pub use laws::{
    a_filter_that_takes_each_plan_leaves_none_out, a_search_with_a_filter_finds_one_answer,
    each_plan_that_is_taken_is_checked,
};
pub use search_loop::{search, search_where};
pub use steps::Steps;
pub use unplanned::Unplanned;
