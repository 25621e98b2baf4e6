//! What the names of a text are declared as.
//!
//! `scope` looks a name up at a place of the text. `types` has the types of names, constants and
//! expressions, as far as declarations give them, and `standard` what the standard names mean.
//! `nearest` finds, among the names that are `visible`, the one that is spelled most like another.
//! `components` lists the components that a text declares, and `reach` finds those in reach by
//! their entries.
//!
//! All of this serves explanations, and is tested with them.
#![tactic(auto)]

pub mod components;
pub mod nearest;
pub mod reach;
pub mod scope;
pub mod standard;
pub mod types;
pub mod visible;
