//! The types for Concurrent Pascal texts, and the definitions against which everything else is
//! proved.
//!
//! The types are plain: tokens (`token`, `short`), the syntax tree (`tree`), what the rules refer to
//! (`rules`), and why a process stops (`state`). `places` says where parts of a tree begin, and
//! `sorts` what holds of each sort of component. `ordinals` has the ranges of integers and
//! characters. The definitions are in `specs/`.
//! docs/language.md and docs/meaning.md describe them in words, each next to the name of its file.
//! The laws of rounds are the contracts of functions with empty bodies (`law`).
#![tactic(auto)]

pub mod law;
pub mod ordinals;
pub mod places;
pub mod rules;
pub mod short;
mod sorts;
pub mod state;
pub mod token;
pub mod tree;
