//! The values of variables, for outcomes.
//!
//! - `value`: a value in the words of traces. `vocabulary`: the names of a text for its values.
//! - `variables`: the variables of a process or a monitor, and those that have a name.
//! - `named`: names such as `m.balance`, and what they name.
//!
//! All of this is for people to read, and is tested.
#![tactic(auto)]

pub mod named;
pub mod value;
pub mod variables;
mod vocabulary;
