//! Why names or their inputs are refused.

ghost use Rattle.std.specs.Prelude.{◌≡◌};
ghost use Rattle.cp_frontend.specs.declared.refusal.Refusal.TheVariants as refusal;
ghost use Rattle.cp_cli_inputs.specs.declared.error.InputError.TheVariants as error;

use cp_frontend::refusal::Refusal;
use std::alloc::{AllocError, AllocFailed};
use thiserror::Error;

/// Why inputs by name make no input.
#[derive(Clone, Copy, Debug, Error)]
pub enum InputError<'a> {
    /// The inputs are too long, or memory ran out.
    #[error("{0}")]
    Refused(Refusal),
    /// The text has no process with this name.
    #[error("error: the text has no process {process}")]
    NoProcess { process: &'a str },
    /// A file holds a byte that no input of a process has.
    #[error("refused I3 at {at} of {file}: byte {byte}; an input has bytes 0 to 127 but for 28")]
    Byte { file: &'a str, at: usize, byte: u8 },
    /// A file can't be read.
    #[error("{file} can't be read")]
    Unread { file: &'a str },
}

impl<'a> From<Refusal> for InputError<'a> {
    ghost from_gives = { λ refusal e. e ≡ error.Refused refusal };

    fn from(refusal: Refusal) -> InputError<'a> {
        InputError::Refused(refusal)
    }
}

impl<'a> From<AllocError> for InputError<'a> {
    ghost from_gives = { λ _ e. e ≡ error.Refused refusal.Memory };

    fn from(_error: AllocError) -> InputError<'a> {
        InputError::Refused(Refusal::Memory)
    }
}

impl<'a, T: Drop> From<AllocFailed<T>> for InputError<'a> {
    ghost from_gives = { λ _ e. e ≡ error.Refused refusal.Memory };

    fn from(_error: AllocFailed<T>) -> InputError<'a> {
        InputError::Refused(Refusal::Memory)
    }
}
