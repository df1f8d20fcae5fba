//! What a partial plan lacks first, the ways to resolve it in their order, and the doing of one.
#![tactic(auto)]

mod applying;
mod flaw;
mod listing;

pub use applying::apply;
pub use flaw::first_flaw;
pub use listing::{resolvers, resolvers_in};
pub use search_tree::{Flaw, Resolver};
