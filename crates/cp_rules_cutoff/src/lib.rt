//! Which parts of a text are after a place, and the law of what is later.
//!
//! A part is after a place if each of its tokens that a rule names is. `specs/After.antt` defines
//! it for the tree as plain data. `parts` has the trait of all such parts and the loop over lists
//! of them. The other modules walk over the tree.
#![tactic(auto)]

mod declaration_parts;
mod expression_parts;
pub mod law;
pub mod parts;
mod statement_parts;
mod type_parts;
