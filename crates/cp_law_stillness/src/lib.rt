//! Still states: nothing in them can move, and nothing ever will.
#![tactic(auto)]

pub mod law;
