//! The worked texts: each answer is what the definitions give, computed from the bytes of the text.
//!
//! The texts and their answers are in the folder `worked`, and `worked/make_rows.py` writes the
//! statements of this crate from them. `specs/Answers.antt` combines the definitions: the tokens,
//! the tree, the rules, the rounds and the report.
#![tactic(auto)]

pub mod rows;
