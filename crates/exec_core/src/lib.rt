//! The executive: a mission, its newest plan, and the history of what was done.
#![tactic(auto)]

mod decide;
mod event;
mod exec;
mod flight;
mod kernel;
mod next;
mod reply;

pub use event::Event;
pub use exec::Exec;
pub use horizon_handover::{Offer, prepare};
pub use reply::Reply;
