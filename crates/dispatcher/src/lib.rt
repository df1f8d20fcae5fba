//! Dispatching execution of a reduced network: which point may be executed now, whether the time may
//! go on, and what is due, decided by kept edges alone.
#![tactic(auto)]

mod course;
mod dispatch;
mod groups;
mod marks;
mod places;
mod times;
mod waits;

pub use dispatch::Dispatch;
