//! Tells whether a written mission keeps all rules, and numbers the one that does.
#![tactic(auto)]

mod acceptance;
mod begins;
mod grounded;
mod horizons;
mod laws;
mod limits;
mod names;
mod needs;
mod ranges;
mod tables;
mod twice;
mod unknown;
mod values;
mod words;

pub use acceptance::accept;
pub use laws::a_mission_is_meant_where_no_rule_is_broken;
