//! Tests of machines, from the bytes of texts. What is expected was worked out by hand from the
//! rules of the language.
#![tactic(auto)]

#[cfg(test)]
mod cases;
#[cfg(test)]
mod gates;
#[cfg(test)]
mod machines;
#[cfg(test)]
mod refusals;
#[cfg(test)]
mod texts;
#[cfg(test)]
mod ways;
#[cfg(test)]
mod workers;
