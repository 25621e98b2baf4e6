//! What a process has left to do: the `continue` statements that it can still come to, and where its
//! activations have been called. All of it is read off the compiled program, the activations of the
//! process, and its rights.
//!
//! - `walk`: all operations that a process can still come to. `passages`: what activations do from
//!   one of their operations on. `successors`: where an operation leads.
//! - `targets`: the components that calls refer to. `rights`: the rights that are passed by an `init`
//!   which is still to come.
//! - `activation`: where an activation continues. `words`: the words in which a process has its
//!   rights.
//! - `continuing`: the `continue` statements of each process.
//! - `places`: where activations have been called.
//!
//! A walk takes every branch, so a process may be said to come to a statement that it never comes
//! to, but never the other way round. All of this is for people to read, and is tested.
#![tactic(auto)]

pub mod activation;
pub mod continuing;
mod passages;
pub mod places;
mod rights;
mod successors;
mod targets;
mod walk;
pub mod words;
