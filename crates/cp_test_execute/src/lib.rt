//! Tests from bytes to bytes with streams that return or take a byte at a time, or fail. What is
//! expected was worked out by hand.
#![tactic(auto)]

#[cfg(test)]
mod faults;
#[cfg(test)]
mod replays;
#[cfg(test)]
mod streams;
#[cfg(test)]
mod texts;
