//! Orders: the events of rounds, and how they are read from a text.
//!
//! - `event`: the events of a round.
//! - `orders`, `rounds`: the events of several rounds, in flat memory.
//! - `reading`: reads an order text line by line. `pieces` cuts lines and words off, `words` reads
//!   the words.
#![tactic(auto)]

pub mod event;
pub mod orders;
mod pieces;
pub mod reading;
pub mod rounds;
mod words;
