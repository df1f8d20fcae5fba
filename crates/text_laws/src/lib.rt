//! Laws of texts: how they are cut, that they are read from left to right with one piece of
//! look-ahead, and that what is written is read back.
#![tactic(auto)]

mod cutting;
mod plans;
mod reading;
mod samples;
mod writing;

pub use cutting::{bytes_are_cut_one_way, the_cut_has_one_answer};
pub use plans::plan_texts_spell_their_plans;
pub use reading::{
    a_mission_text_spells_one_ast, a_text_has_one_answer, clauses_are_read, missions_are_read,
};
pub use samples::{the_camera_is_printed, the_samples_are_spelled};
pub use writing::{canonical_texts_are_read_back, writable_missions_are_spelled};
