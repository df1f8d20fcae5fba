//! Laws of flights: how they begin, that their plan is checked, and that they end by firing their
//! horizon's point.
#![tactic(auto)]

mod flights;

pub use flights::{
    a_flight_begins_with_its_plan, a_flight_ends_at_its_horizon, a_flight_is_of_a_checked_plan,
};
