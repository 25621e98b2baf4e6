//! A search by calls: the state space of a program, breadth first. A step of the search is a late
//! step of a process, which calls a monitor, with the eager steps that follow it.
//!
//! - `search`: expands states until each late step of each leads to a state that was seen.
//! - `space`: the states that were seen, and what is noted of them.
//! - `moving`: moves of one process, which are remembered.
//! - `batch`: where late steps lead, found by workers before the states are expanded. `scout`: how a
//!   worker finds it.
//! - `kinds`: the first states that have ended, are stuck, or have a fault.
//!
//! `specs/SearchResults.antt` defines what a search shows.
#![tactic(auto)]

mod batch;
mod kinds;
mod moving;
pub mod notes;
mod scout;
pub mod search;
mod space;
