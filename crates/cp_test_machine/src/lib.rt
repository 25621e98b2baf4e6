//! Some worked texts, run by their compiled programs: the machine, computed as plain data, gives
//! the same answers as the meaning.
//!
//! The laws of cp_model_program and cp_model_machine prove this for the program of every accepted
//! text. This crate shows that the definitions in these laws can be computed with
//! (`specs/Answers.antt`). The texts and their answers, which were worked out by hand, are those of
//! cp_test_definitions. `worked/make_rows.py` writes the statements.
#![tactic(auto)]

pub mod rows;
