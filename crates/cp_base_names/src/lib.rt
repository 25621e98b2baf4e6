//! Tables of names: what the names of a text represent, in the order of their declarations.
//!
//! A name is found by its hash, whose key is a digest of all names of the text (`key`), so that no
//! one can write a text whose names collide. Among few names it is found by comparison.
#![tactic(auto)]

mod key;
mod name;
mod table;

pub use key::Key;
pub use table::NameTable;
