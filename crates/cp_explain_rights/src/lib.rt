//! The access graph of an accepted text: which components a program consists of, and which of them
//! has a right to which, as `init` hands the rights over.
//!
//! `blueprint` says what each type declares and what its body hands over, `handing` finds that in
//! the body, and `instances` makes all components of these. `graph` writes them, as `lines` or for
//! Graphviz (`dot`).
//!
//! A class can hold classes, so a short text can have as many components as words. So there is a
//! limit to what is drawn, and the graph says when it is reached.
//!
//! All of this is words, and tested.
#![tactic(auto)]

mod blueprint;
mod dot;
pub mod graph;
mod handing;
mod instances;
mod lines;
