//! The states that a search has seen. Each different kernel and each different private state is
//! kept once, and a state is the numbers of its parts.
//!
//! - `kernels`, `parts`: the different kernels and private states, and their numbers.
//! - `rows`: the numbers of the private states of each state.
//! - `store`: the states, by their indices.
//! - `moves`: where moves lead that were made before.
//! - `hints`: where to look for what has a hash.
//!
//! `specs/Stored.antt` defines which states a store has, `specs/Moves.antt` what is kept of moves. Hashes are hints: what is found is
//! compared, so no clause mentions them.
#![tactic(auto)]

mod hints;
mod kernels;
pub mod moves;
mod parts;
mod rows;
pub mod store;
