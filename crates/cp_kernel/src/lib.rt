//! The kernel: gates, stages of processes, shared words and transcripts.
//!
//! For any program and any state, the kernel's calls are the functions on plain data that
//! cp_model_machine defines (`specs/KernelOf.antt` defines the plain data). No effect of a step
//! takes memory.
//!
//! - `kernel`, `starting`: the kernel, and how it starts.
//! - `reading`, `chain`: what can be read of it.
//! - `effects`: what a step leaves to the kernel.
//! - `step`, `turns`: one step of the kernel, and kernel turns.
//! - `closing`: the end of a round.
//! - `copying`, `sameness`, `hashing`: copies of kernels, kernels with the same content, and hashes
//!   of it.
//! - `assigning`: kernels that are made the same as others.
//! - `room`: room for what kernel turns add.
#![tactic(auto)]

mod assigning;
pub mod chain;
pub mod closing;
mod copying;
mod effects;
mod hashing;
pub mod kernel;
pub mod reading;
mod room;
mod sameness;
mod starting;
mod step;
pub mod turns;
