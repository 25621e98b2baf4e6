//! The compiler, which makes the program of a text.
//!
//! - `unit`: compiles a unit from its scope, its plan and its statements.
//! - `system`: compiles the units of a system type, which are its routines in text order followed
//!   by its body.
//! - `definitions`: compiles the system types of a text in order, and records the first unit of
//!   each named type.
//! - `components`, `layout`: monitors and processes, and where their words are.
//! - `compiler`: compiles a whole tree.
//!
//! The tables of the text are made before (cp_check). For an accepted text, the result is that of
//! `cp_model_program`'s function `compile`, which represents the text by a law
//! (`cp_model_program::law::accepted_tree_has_program`).
#![tactic(auto)]

mod compiler;
mod components;
mod definitions;
mod layout;
mod system;
mod unit;

pub use compiler::compile;
