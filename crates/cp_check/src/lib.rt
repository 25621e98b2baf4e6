//! The check of a text: first by the rules of the language (cp_rules), then by compiling it into
//! its program (cp_compile), with the one pass of tables (cp_compile_symbols) that all later stages use.
#![tactic(auto)]

pub mod checking;
