//! Whether anything can still move in a machine, and rounds until nothing can.
//!
//! - `stillness`: whether a process can move.
//! - `until_still`: rounds until none can. The first still state is the last that they reach.
//!
//! `specs/Stillness.antt` says when a machine is still. By the law of cp_law_stillness, one that is
//! stays so.
#![tactic(auto)]

pub mod stillness;
pub mod until_still;
