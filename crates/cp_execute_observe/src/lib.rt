//! From an accepted text and an input to the bytes of an outcome or a trace.
//!
//! - `execute_outcome`: runs until nothing can move. `execute_trace`: what each round changed.
//! - `until_still`, `tracing`: builds the program of an accepted text, runs it, and makes the
//!   outcome or the trace. `form`: what is written of an outcome. `snapshot`: where all are.
//!   `looping`: whether a state comes again.
//! - `rounds`: makes the rounds of a machine, and writes what is reported of them.
//!
//! Reading, judging and refusals are cp_frontend's, and the machine at its start is
//! cp_execute_start's.
//! `specs/Outcomes.antt` with `specs/Forms.antt`, and `specs/Traces.antt` with `specs/Writing.antt`
//! define what a result means.
#![tactic(auto)]

pub mod execute_outcome;
pub mod execute_trace;
pub mod form;
mod looping;
mod rounds;
pub mod snapshot;
pub mod tracing;
pub mod until_still;
