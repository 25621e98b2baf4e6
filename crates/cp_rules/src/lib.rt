//! The rules of a whole text, for any tree.
//!
//! cp_model's `specs/Rules*.antt` define the rules. `text::judge` and `text::violations` are what
//! other crates call. Both judge a text in order with a `Checker`, which holds the environment so
//! far and what was reported: first the standard names (`standard`), then the definitions
//! (`definitions`, `types`, `arrays`, `records`, `systems`), and then the variables, the routines
//! and the body of the initial process (`variables`, `owners`, `headings`, `routines`, `text`).
//! After a broken definition judging ends, unless something earlier could be reported of what is
//! left (`remaining`, `ending`). cp_rules_body judges expressions and statements.
//! `specs/Checking.antt` defines what contracts say about the checker's state and about a result.
#![tactic(auto)]

mod arrays;
pub mod checker;
mod declaring;
mod definitions;
mod ending;
mod entering;
mod headings;
mod members;
mod named;
mod owners;
mod placing;
mod records;
mod remaining;
mod results;
mod routines;
mod standard;
mod systems;
pub mod text;
mod types;
mod variables;
mod words;
