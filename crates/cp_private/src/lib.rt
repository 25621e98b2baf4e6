//! The private state of a process, and its steps: private steps, which no other process can
//! observe, and what the process itself does in a step of the kernel.
//!
//! For any program and any private state, a step is the function on plain data that
//! cp_model_machine defines; `specs/States.antt` says for which plain data a private state is.
//! It works on the process's own words and the shared words after them, so that private and kernel
//! steps are one function. What a step leaves as it was, besides what its clause says, is in
//! `specs/Keeping.antt`. By the law of cp_model_machine, private steps and turns are those of the
//! meaning (`specs/Promises.antt`).
//!
//! - `private`, `making`, `private_box`, `positions`: the private state, how it is made, copied and
//!   read, its place in memory, and where its activations continue.
//! - `kernel_view`, `outside`, `alone`, `effect`: what the kernel knows, what else a step reads,
//!   and what it leaves to the kernel.
//! - `words`, `changing`, `reading`, `frames`: words, temps and frames.
//! - `plans`, `starting`: how words start.
//! - `assignments`, `counting`, `standards`, `targets`, `passing`, `called`, `calls`, `returns`,
//!   `initialisation`: the steps of operations.
//! - `fast_step`: the commonest steps, made in registers.
//! - `sameness`, `hashing`: private states with the same content, and hashes of it.
//! - `assigning`: private states that are made the same as others.
//! - `step`, `turns`, `kind`, `resting`: a step of any operation, turns, whether the next step
//!   is private or the kernel's, and processes that have no private step to make.
#![tactic(auto)]

mod alone;
mod assigning;
mod assignments;
mod called;
mod calls;
mod changing;
mod counting;
pub mod effect;
mod fast_step;
mod frames;
pub mod hashing;
mod initialisation;
pub mod kernel_view;
pub mod kind;
mod making;
pub mod outside;
mod passing;
mod plans;
pub mod positions;
pub mod private;
pub mod private_box;
mod reading;
mod resting;
mod returns;
mod sameness;
mod standards;
pub mod starting;
mod step;
mod targets;
pub mod turns;
mod words;
