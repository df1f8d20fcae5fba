//! Laws of the plain definitions: lists that are walked, missions, and the points of plans.
#![tactic(auto)]

mod missions;
mod points;
mod samples;

pub use missions::parts_of_a_mission_keep_its_rules;
pub use points::{
    a_plan_has_so_many_points, points_have_names_of_their_own, points_keep_their_numbers,
};
pub use samples::{the_camera_mission_is_one, the_smallest_mission_is_one};
