//! The components of a text, and where their variables are: processes and monitors by number and by
//! name, and a walk over the parts of their variables, which reports each part or keeps its place.
//!
//! All of this is read off the tables of a text and the words of a state, so it doesn't depend on
//! the machine and its rounds. What is reported is that of cp_model_machine's `specs/Reports.antt`.
//!
//! - `state`, `place`: the state of a process; whose a variable is, where it is and its value.
//! - `listing`, `component_table`: the processes or monitors by number, and all of them by name.
//! - `walk_output`, `walk`: what is reported of a part of a variable, and the walk over all parts.
//! - `heads`, `components`: how many words come before members, and the parts of whole components.
//! - `leaves`, `law`: the places of the variables of a component, and what their codes mean.
//! - `status`: the state of a process in words.
//! - `inspect`: what a trace reads of a machine, which crates above define.
//! - `text`: queues and bytes as text.
#![tactic(auto)]

pub mod component_table;
mod components;
mod heads;
pub mod inspect;
pub mod law;
pub mod leaves;
pub mod listing;
pub mod place;
pub mod state;
pub mod status;
pub mod text;
pub mod walk;
pub mod walk_output;
