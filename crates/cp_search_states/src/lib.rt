//! The states of a search: the private states of all processes and a kernel, without what was
//! written.
//!
//! - `state`, `ways`: states, and the ways of their processes.
//! - `steps`: a private turn, a kernel turn of one step, and the end of a round.
//! - `settling`: eager steps until there is none, and a late step before them.
//! - `alone`: a kernel and the private state of one process, without the others.
//! - `starting`, `verdicts`: the first state, and whether a state is neither faulted nor stuck.
#![tactic(auto)]

pub mod alone;
pub mod settling;
mod starting;
pub mod state;
pub mod steps;
mod verdicts;
pub mod ways;
