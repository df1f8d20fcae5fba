//! Reads mission texts.
#![tactic(auto)]

mod bytes;
mod cut;
mod large;
mod mission;
mod name;
mod need;
mod next;
mod number;
mod piece;
mod pieces;
mod range;
mod reader;
mod reading;
mod script;
mod unread;
mod value;

pub use piece::{Piece, PieceKind};
pub use pieces::Pieces;
pub use reader::Reader;
pub use reading::{read, read_front};
pub use unread::Unread;
