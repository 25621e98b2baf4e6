//! The parser: finds the one syntax tree of a list of tokens, or the first token that no text has
//! there.
#![tactic(auto)]

mod declarations;
mod expressions;
mod factors;
mod levels;
mod lists;
mod names;
mod operators;
mod parsing;
mod refusal;
mod routines;
mod simple_statements;
mod statements;
mod tokens;
mod types;

pub use parsing::parse;
pub use refusal::SyntaxError;
