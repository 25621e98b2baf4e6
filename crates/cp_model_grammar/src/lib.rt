//! The grammar as reading functions on lists of tokens, and their laws.
//!
//! The functions are in `specs/`, one family after another: names and constants, expressions,
//! types, statements, declarations, and the whole text. cp_syntax is proved to compute them. The
//! proofs here show that they read exactly what the grammar allows, and stop at the first token
//! that no text has there.
#![tactic(auto)]

mod laws;
mod stop;

pub use laws::{expression_laws, refusal_laws, statement_laws, text_laws, type_laws};
pub use stop::Stop;
