//! What the program's words ask for.
#![tactic(auto)]

mod number;
mod request;
mod unasked;
mod words;

pub use request::{Command, Request};
pub use unasked::Unasked;
pub use words::words_of;
