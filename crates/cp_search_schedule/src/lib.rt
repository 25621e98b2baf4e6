//! Schedules that a search has found: the steps of the calls that lead to a state, as an order text
//! for `replay`, and what each call does.
//!
//! - `schedule`: schedules, their calls, and the effects of calls.
//! - `recording`: makes the calls again from the start, one step at a time, and records them.
//! - `writing`: the order text. `noticing`: what a step has changed.
//!
//! No clause mentions schedules: a replay finds out what a schedule leads to.
#![tactic(auto)]

mod noticing;
pub mod recording;
pub mod schedule;
mod writing;
