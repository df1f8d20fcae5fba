//! Laws of the partial plans that parts make, and of the tree that a search walks, over the
//! definitions alone.
#![tactic(auto)]

mod laws;

pub use laws::{
    a_partial_plan_without_flaw_gives_a_checked_plan, a_search_finds_one_answer,
    each_plan_that_is_found_is_checked, the_parts_of_a_resolver_are_allowed,
};
