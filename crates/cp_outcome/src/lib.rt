//! What became of a run, and why.
//!
//! - `verdict`: whether the processes have ended, are stuck or faulted, or still move. `status`:
//!   the exit status of each verdict.
//! - `outcome`: the line of a verdict, before the reasons for it.
//! - `transcript`: what a process has written. `several`: what several have.
#![tactic(auto)]

pub mod outcome;
pub mod several;
pub mod status;
pub mod transcript;
pub mod verdict;
