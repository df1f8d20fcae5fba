//! Laws of schedules, reduced networks and dispatching, over the definitions alone.
#![tactic(auto)]

mod dispatching;
mod dominance;

pub use dispatching::{
    a_mark_tells_its_bound, a_move_changes_one_group, a_reached_state_goes_on,
    each_answer_has_its_bound, groups_tell_ties_and_weights, kept_edges_decide, times_of_a_list,
    windows_decide,
};
pub use dominance::{
    a_kept_edge_dominates, between_is_nested, dominance_is_a_strict_order, the_camera_network,
    the_reduced_network_is_exact,
};
