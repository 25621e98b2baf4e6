//! Translates expressions, designators and statements to operations.
//!
//! A `Translator` has the scope of a unit. Whatever the tree, the result of each function equals
//! that of a function of `cp_model_program`'s definitions (`CodedTerms.antt`,
//! `CodedStatements.antt`), in each scope that its tables represent:
//!
//! - `expressions`: terms and place expressions, and the calls to make before them, in order
//!   (`specs/Translated.antt`). Expressions, designators and arguments contain one another.
//!   `names`, `parts`, `operators`, `standard`, `calls` and `arguments` have the steps that aren't
//!   part of this recursion.
//! - `statements`: the operations of a statement, and where they are entered
//!   (`specs/Statements.antt`). `operations`, `assignments`, `procedures` and `initialisation` have
//!   the statements that contain no statements, and `components` has what they need of named
//!   components.
//!
//! Recursion follows only nesting, and lists are handled by loops. Each part of a tree is visited
//! once, except that `succ`, `pred`, `display` and `accept` also look for the type of their
//! argument. The definitions also say what is made of trees that no accepted text has, such as a
//! part of something without parts, or a name that means nothing. The only error is a lack of room.
#![tactic(auto)]

mod arguments;
mod assignments;
mod calls;
mod components;
mod expressions;
mod initialisation;
mod made;
mod names;
mod operations;
mod operators;
mod parts;
mod procedures;
mod standard;
mod starts;
mod statements;
mod translator;
mod types;

pub use made::{MadeArgument, MadeArguments, MadePlaceExpression};
pub use translator::Translator;
