//! Symbol tables and layouts: what the names of a text represent, and where its variables are.
//!
//! `Tables::of_tree` makes the tables of any tree, in two passes over its definitions:
//!
//! - **The outermost scope.** `Outer` has the constants and types that the definitions make, in
//!   text order. A type is a row of `Types` that refers to the types of its parts by their numbers.
//!   A chain of named types of any length is therefore followed without recursion, and only written
//!   types nest.
//! - **Layouts and system types.** Once the scope is final, `Layouts` computes the size of each
//!   type and where its members are from the layouts of its parts. A `SystemTable` has the
//!   parameters and variables of a system type, where its members and rights are, which components
//!   its names mean, and for each routine a `RoutineTable` with the layout of its locals.
//! - **Scopes.** A `Scope` is what the code of a unit is compiled with. It knows what names,
//!   designators and calls mean there (`specs/Scopes.antt`), the types of places and values
//!   (`specs/Places.antt`, `specs/Expressions.antt`), and the numbers of units.
//!
//! Names are borrowed from the tree and found by comparison, in logarithmic time. Only look-ups
//! define what names and numbers represent (`specs/Representing.antt`, and `specs/Texts.antt` for a
//! whole text). Sizes and offsets that don't fit their fields are `None`, and an error only when
//! they are used, because a text may declare a type that is far larger than any variable.
#![tactic(auto)]

mod components;
mod counts;
mod designators;
mod expressions;
mod layout;
mod locals;
mod names;
mod numbering;
mod outer;
mod places;
mod resolving;
mod routines;
mod scope;
mod systems;
mod tables;
mod type_names;
mod types;
mod units;
mod variables;

pub use components::Right;
pub use counts::{count_between, small_number, small_sum};
pub use designators::is_part;
pub use expressions::{base_type, first_ordinal, last_ordinal};
pub use layout::{Layout, Layouts, Part};
pub use locals::{Local, Locals};
pub use names::{Names, Value};
pub use numbering::Numbered;
pub use outer::Outer;
pub use places::Elements;
pub use routines::RoutineTable;
pub use scope::{Callee, Meaning, Scope};
pub use systems::{Component, IndexedRoutine, SystemTable};
pub use tables::Tables;
pub use types::{Base, Field, Simple, TypeRow, Types};
pub use variables::Declared;
