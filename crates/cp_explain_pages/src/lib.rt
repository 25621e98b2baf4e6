//! The pages of `explain RULE`: what a rule or a fault says, why, and a text that breaks it.
//!
//! - `rules`: finds the page of a rule by its name.
//! - `pages`: the pages, which `docs/make_pages.py` writes.
#![tactic(auto)]

mod pages;
pub mod rules;
