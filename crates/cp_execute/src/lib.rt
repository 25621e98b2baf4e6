//! From an accepted text, an input and an order to the bytes of a report.
//!
//! - `execute`: the jobs, from the bytes of readers to those of a writer. `execute_order`: replays.
//! - `running`, `replaying`: builds the program of an accepted text, runs or replays it, and makes
//!   the report.
//!
//! Reading, judging and refusals are cp_frontend's. `specs/Executed.antt` and `specs/Replayed.antt`
//! define what a result means.
#![tactic(auto)]

pub mod execute;
pub mod execute_order;
pub mod replaying;
pub mod running;
