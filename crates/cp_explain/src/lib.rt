//! Explanations: the judgement of `check`, written for people.
//!
//! `explain::explain_text` reads a text, judges it as `check` does, and writes the explanation. For
//! a refused text that is its heading and what cp_explain_syntax (no tokens, or no tree:
//! `reported`) or cp_explain_rules (a broken rule) reports. For an accepted text it is the access
//! graph (cp_explain_rights). `all` reports all violations of a text, and what it uses of the
//! book's language that this one hasn't (`lacking`). `object` reports the same for a text as a JSON
//! object, from the parts of its page (`parts`) and the lines of its graph (`graph_object`).
//! `refusal_objects` and `accepted_object` are these objects, and `fields` writes their fields.
//! `asked` chooses one of these forms. `refused_object` is what commands that run a text write if it
//! is refused.
//!
//! The judgement, the position and the start of the first line are proved (`specs/Explained.antt`).
//! So are the fields of an object, its judgement, and the rule and the place of its first violation
//! (`specs/Objects.antt`, `specs/Values.antt`). The wording is tested.
#![tactic(auto)]

mod accepted_object;
mod all;
pub mod asked;
pub mod explain;
mod fields;
mod graph_object;
mod lacking;
pub mod object;
mod parts;
mod refusal_objects;
pub mod refused_object;
mod reported;
mod token_end;
