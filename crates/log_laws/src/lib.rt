//! What the text of a history says, and that it is a sentence of its grammar.
#![tactic(auto)]

mod logs;
mod written;

pub use logs::log_texts_are_sentences;
pub use written::{WrittenBound, WrittenDeed, WrittenEntry, WrittenLog, WrittenMiss};
