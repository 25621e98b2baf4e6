//! The scanner: finds the one list of tokens that spells a text, or the first place at which no
//! token and no separator begins.
//!
//! `piece` reads the piece at a place of a text, by its first byte, and `progress` appends its
//! token. `scanning` reads all pieces from left to right. The code computes the functions of
//! `specs/Pieces.antt`. The proofs show that these agree with the definition of spelling
//! (`Spelling` of cp_model), which is what the contract of `scan` says.
#![tactic(auto)]

mod bytes;
mod characters;
mod comments;
mod marks;
mod numbers;
mod piece;
mod progress;
mod refusal;
mod scanning;
mod words;

pub use refusal::{Cause, ScanError};
pub use scanning::{MAX_SOURCE_BYTES, scan};
