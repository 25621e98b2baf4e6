//! The form of a compiled program: operations that name those that follow them, flat enough that a
//! step needs neither allocation nor hashing.
//!
//! - `term`, `divisor`: expressions, which are chains of operands, and place expressions, which are
//!   places of variables. `applications`: the forms of an operator with an operand.
//! - `element`: indices that need no chain of operands, and elements by one of them. `indices`,
//!   `elements`: how they are made. `element_places`: where elements are.
//! - `operation`: operations, each of which is one step and holds the places to which it leads.
//! - `bounds`: the numbers that a variable may hold.
//! - `arm`, `arms`, `search`: where a `case` leads.
//! - `program`: units of code, the words of components, and the program. What components of one
//!   type share is kept once.
//! - `evaluation`: the values of terms and the places of place expressions, over the words that
//!   `reach` has.
//! - `flat`, `operators`: the same for the commonest terms and place expressions, in registers.
//!   `memory`: the words that both read. `arithmetic`, `exact`: the operators, with their faults
//!   and without.
//!
//! `specs/View.antt` defines these forms as plain data of `cp_model_program`, which the definitions
//! of steps are about.
#![tactic(auto)]

mod applications;
mod arithmetic;
pub mod arm;
pub mod arms;
pub mod bounds;
pub mod divisor;
pub mod element;
mod element_places;
mod elements;
pub mod evaluation;
mod exact;
pub mod flat;
mod indices;
mod memory;
pub mod operation;
mod operators;
pub mod program;
pub mod reach;
pub mod search;
pub mod term;
