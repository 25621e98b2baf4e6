//! Notes on accepted texts: what the rules allow although it is doomed.
//!
//! `text` walks over declarations, `statements` over bodies and `expressions` over calls; `walk` is
//! what they know on their way, and `flow` which ways lead to a place.
//! Each kind of note is in a module: `initialisation`, `queues`, `queue_uses`, `ranges` and
//! `results`. `statements` notes those that never run. `note` orders the notes, and writes them in
//! the words of `messages`.
//!
//! A note claims only what holds whatever the values are. All of this is words, and tested.
#![tactic(auto)]

mod expressions;
mod flow;
mod initialisation;
mod messages;
mod note;
mod queue_uses;
mod queues;
mod ranges;
mod results;
mod statements;
mod text;
mod walk;

pub use note::NoteText;
pub use text::{add_notes, notes};
