//! Laws of the executive: what a dispatch decides is what the machine answers, a running state goes
//! on, and an ended one leaves nothing open but ends of last tokens.
#![tactic(auto)]

mod deciding;
mod running;

pub use deciding::{
    a_dispatch_decides_as_the_machine, like_moments_have_the_same_replies, what_is_allowed_fits,
};
pub use running::{a_running_state_goes_on, an_ended_run_leaves_last_ends};
