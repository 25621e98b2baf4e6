//! Diagnoses: which explanation a broken rule gets.
//!
//! `finder` and the walks find what is at the place (`site`), and `choice` and `choice_types`
//! pick the message for that (`messages`). `agreement` reports the types that don't agree, `counts`
//! the arguments that a call takes, `members` what can be after a `.`, and `spelling` what a
//! name may have meant. `diagnosis` puts these together. What names are declared as is
//! cp_explain_names's.
//!
//! All of this is words, and tested.
#![tactic(auto)]

mod agreement;
mod choice;
mod choice_types;
mod counts;
mod diagnosis;
mod finder;
mod members;
mod messages;
mod site;
mod spelling;
mod walk_declarations;
mod walk_expressions;
mod walk_statements;

pub use diagnosis::{of_violation, of_violation_in_short};
