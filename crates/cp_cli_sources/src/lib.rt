//! What commands read: texts and inputs, opened by name, and why a command has no result.
//!
//! - `opening`: a file, standard input, or bytes in memory. `inputs`: the text and the inputs of a
//!   run. `judging`: the same for commands that write an object if the text is refused.
//! - `failure`: why a command has no result, and the exit statuses. `locating`: where a text is
//!   refused.
//! - `printing`: standard output.
//!
//! `specs/Sources.antt` defines what is left to read.
#![tactic(auto)]

pub mod failure;
pub mod inputs;
pub mod judging;
pub mod locating;
pub mod opening;
pub mod printing;
