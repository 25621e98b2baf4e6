//! Tests of the scanner: texts with their tokens or their refusals.
#![tactic(auto)]

#[cfg(test)]
mod tests;
