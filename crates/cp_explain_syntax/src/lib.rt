//! Errors of spelling and syntax: why a text has no tokens or no tree, in the words of someone who
//! knows another language.
//!
//! `spelling` explains where the scanner stops, by the bytes there. `syntax` explains where the
//! parser stops: by a habit of another language (`marks`, `words`, `habits`), or by a token that is
//! missing (`repair`), and by the tokens that can be there (`expected`). `front` has the tokens
//! around the place, `context` what is open there, and `outline` the same state with fewer tokens.
//! `mistakes` finds all syntax errors of a text, and `recovery` where it continues after each.
//!
//! All of this is words, and tested.
#![tactic(auto)]

mod completion;
mod context;
mod expected;
mod front;
mod habits;
mod marks;
mod messages;
mod missing_messages;
mod mistakes;
mod outline;
mod recovery;
mod repair;
mod spelling;
mod spelling_messages;
mod syntax;
mod words;

pub use mistakes::{Mistake, MistakeKind, find_mistakes};
pub use spelling::of_spelling;
pub use syntax::{of_depth, of_unexpected, of_unfinished};
