//! What a search has found, in words and as an object: schedules call by call, and how much was
//! seen.
//!
//! - `report`: the lines of a search. `object`: the object.
//! - `findings`: what a search has found, as plain data.
//! - `story`: the calls of a schedule, a line each. `names`: names and places in the text.
//!
//! All of this is for people to read, and is tested.
#![tactic(auto)]

pub mod findings;
mod names;
pub mod object;
pub mod report;
mod story;
