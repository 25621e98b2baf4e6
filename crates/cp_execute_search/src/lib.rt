//! From an accepted text and an input to what all schedules lead to.
//!
//! - `execute_search`: reads a text and an input, searches all schedules, and writes what was found.
//! - `searching`: searches the program of an accepted text. `seeing`: the search, and the schedules
//!   of the states that it has found.
//! - `certifying`: replays each of these schedules before it is shown. `kind`: the kinds of them.
//! - `form`: what is written. `verdict`: what was shown, and its exit status.
//!
//! Reading, judging and refusals are cp_frontend's. `specs/Searches.antt` and
//! `specs/Certificates.antt` define what a result means.
#![tactic(auto)]

mod certifying;
pub mod execute_search;
mod form;
pub mod kind;
pub mod searching;
mod seeing;
pub mod verdict;
