//! The compiler's emitter: makes operations from the end of a statement to its start, and keeps
//! track of what the unit in progress needs.
//!
//! - `emitter`, `emission`, `unit`: operations with their calls, loops whose closing operation is
//!   completed once their body is emitted, and units.
//! - `need`: the words, temps and frames that an operation or a unit needs.
//! - `call`: the calls of a statement's terms.
//! - `table`: where a `case` leads.
//! - `plan`: the plans so far, and what they are made from. `pieces`: what the pieces of a plan
//!   are.
//! - `parts`: the plans of parts that are one after another. `type_plans`: the plans of types.
//! - `starts`: plans for the start values of the words of activations and components.
//! - `draft`: a plan in progress, which is made from its end.
//! - `members`: what plans are made from.
//!
//! Each function equals one of `cp_model_program`'s definitions, on the plain data that
//! `cp_program` makes of operations.
#![tactic(auto)]

pub mod call;
pub mod draft;
pub mod emission;
pub mod emitter;
mod members;
pub mod need;
mod parts;
mod pieces;
pub mod plan;
pub mod starts;
pub mod table;
mod type_plans;
pub mod unit;

pub use emitter::{CodedCall, Emitter};
