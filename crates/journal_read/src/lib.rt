//! Reads logs back: each entry with its time, and with the mission's numbers in place of names.
#![tactic(auto)]

mod copying;
mod entries;
mod laws;
mod log;
mod naming;
mod noted;
mod parts;
mod read_log;
mod reading;
mod stop;

pub use laws::{
    a_log_text_has_one_answer, a_log_text_spells_one_log, logs_are_read, logs_are_read_back,
};
pub use noted::Noted;
pub use read_log::read;
pub use stop::{Stop, read_stop};
