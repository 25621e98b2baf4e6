//! Components by name: which names are unknown, the numbers of processes, and the input of each
//! process from a reader of its own.
//!
//! - `named`: the processes, monitors and variables of a text by name, in any letter case.
//! - `reading`: reads the inputs of the processes that are named. `error`: why names or inputs are
//!   refused.
//!
//! `specs/Numbers.antt` defines what names mean, and `specs/Readings.antt` what is read.
#![tactic(auto)]

pub mod error;
pub mod named;
pub mod reading;
