//! The parameters of runs and of explanations: numbers, each within its range, and forms of what is
//! written. Nothing here depends on the machine.
//!
//! - `turn`, `tick`, `plan`: how many steps a turn has, when the clock ticks, and how a round is
//!   divided among workers (`specs/Plans.antt`). `limits`: which number is out of its range.
//! - `run`, `outcome`, `trace`, `search`: the parameters of runs and replays, of outcomes, of traces
//!   and of searches. `explaining`: those of explanations.
#![tactic(auto)]

pub mod explaining;
pub mod limits;
pub mod outcome;
pub mod plan;
pub mod run;
pub mod search;
pub mod tick;
pub mod trace;
pub mod turn;
