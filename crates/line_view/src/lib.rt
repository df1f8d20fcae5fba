//! What the executive shows of one timeline.
#![tactic(auto)]

mod current;
mod laws;
mod shown;

pub use laws::each_timeline_has_a_current_token;
pub use shown::{Line, line_of};
