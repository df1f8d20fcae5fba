//! What texts say: written missions and plans, refusals, and the definitions that contracts cite
//! of texts: pieces, grammars, meanings and written forms.
#![tactic(auto)]

mod ast;
mod refusal;
mod text;
mod written;

pub use ast::{
    Arg, Ast, AstChoice, AstGoal, AstHorizon, AstKind, AstNeed, AstSaid, AstStep, AstValue, AstVar,
    Param, Sort, Use,
};
pub use refusal::Refusal;
pub use text::Text;
pub use written::{
    WrittenBody, WrittenExtension, WrittenKind, WrittenPoint, WrittenSupport, WrittenTime,
    WrittenToken,
};
