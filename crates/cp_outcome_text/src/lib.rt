//! What the text of a program says, for reasons: pieces of it, and what its statements do.
//!
//! - `parts`: what statements are made of. `queues`: which entries continue a queue. `starts`: which
//!   `init` starts a process.
//! - `indices`: paths with names as indices. `piece`: a piece of a text on one line.
//!
//! All of this is for people to read, and is tested.
#![tactic(auto)]

pub mod indices;
pub mod parts;
pub mod piece;
pub mod queues;
pub mod starts;
