//! Why a text has no tokens, or none were found. `specs/Laws.antt` defines what each cause says
//! about a text.

ghost use Rattle.std.specs.Prelude.{◌≡◌};
ghost use Rattle.cp_scan.specs.declared.refusal.ScanError.TheVariants.{Memory};

use std::alloc::{AllocError, AllocFailed};

/// Why no token and no separator begins at a place of a text, with its number in refusals.
#[derive(Clone, Copy, Debug, PartialEq, Eq)]
pub enum Cause {
    /// S1: a byte that begins no token.
    Byte,
    /// S2: a comment without an end.
    Comment,
    /// S3: an apostrophe that begins no character constant.
    Character,
    /// S4: a number above 32767.
    Number,
    /// S5: a word of more than 64 letters, digits and underscores.
    Word,
    /// S6: the text is longer than 1,048,576 bytes.
    Size,
}

/// Why `scan` returns no tokens.
#[derive(Clone, Copy)]
pub enum ScanError {
    /// No list of tokens spells the text, or the text is too long: the first cause, and the offset
    /// of its byte, from 0.
    Refused { cause: Cause, at: usize },
    /// M: memory was refused. This says nothing about the text.
    Memory,
}

impl From<AllocError> for ScanError {
    ghost from_gives = { λ _ error. error ≡ Memory };

    fn from(_error: AllocError) -> ScanError {
        ScanError::Memory
    }
}

impl<T: Drop> From<AllocFailed<T>> for ScanError {
    ghost from_gives = { λ _ error. error ≡ Memory };

    fn from(_error: AllocFailed<T>) -> ScanError {
        ScanError::Memory
    }
}
