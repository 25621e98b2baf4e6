//! What the names of an accepted text mean, for walks over all of it.
//!
//! A walk makes names visible in the order of the text, and hides them at the end of their scope. A
//! name is found in time that grows with the logarithm of the number of names, where
//! cp_explain_names, which also finds what a text that breaks a rule may have meant, looks through
//! the declarations. In an accepted text no name hides another.
//!
//! `meaning` is what names and types represent, and `names` finds it. All of this serves notes, and
//! is tested with them.
#![tactic(auto)]

pub mod meaning;
pub mod names;
