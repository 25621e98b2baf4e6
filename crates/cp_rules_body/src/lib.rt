//! The rules for expressions and statements, which are judged in an environment that declarations
//! have made.
//!
//! cp_model's `specs/Rules*.antt` define the rules. The contract of each function here says that it
//! agrees with its definition: `diagnostics` becomes the earliest of the violation reported before and
//! those of the definition, and the result is the meaning, or `None` if something is broken
//! (`specs/Reports.antt`).
#![tactic(auto)]

mod assignments;
pub mod bases;
pub mod callees;
mod conditions;
pub mod constants;
pub mod designators;
pub mod diagnostics;
mod entities;
pub mod environment;
pub mod expressions;
mod initialisation;
mod labels;
mod members;
pub mod names;
pub mod needs;
mod operands;
pub mod places;
mod procedures;
mod roots;
pub mod scope;
mod standard;
pub mod statements;
mod values;

pub use environment::Environment;
