//! Tests of the ticket board: how numbers are spread over stripes, that seats on many threads draw
//! them all, and that a seat sees a stop that another seat called.
#![tactic(auto)]

#[cfg(test)]
mod tests;
