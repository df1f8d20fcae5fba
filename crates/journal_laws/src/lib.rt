//! Logs tell their runs: two runs of a mission with the same log have the same deeds.
#![tactic(auto)]

mod logs;

pub use logs::histories_with_one_log_are_one;
