//! A partial plan of a search: the parts that were done since it began, with a schedule of its
//! bounds, and its flaws at hand.
#![tactic(auto)]

mod board;
mod bounding;
mod course;
mod db;
mod doing;
mod draft;
mod extending;
mod flaws;
mod laying;
mod line;
mod looking;
mod lookups;
mod mark;
mod opening;
mod serving;
mod shut;
mod standing;
mod supporting;
mod token;
mod undoing;

pub use db::Db;
pub use line::Line;
pub use mark::DbMark;
pub use shut::Shut;
pub use token::Token;
