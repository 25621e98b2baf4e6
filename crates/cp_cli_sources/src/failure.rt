//! Why a command has no result, and the exit statuses.

ghost use Rattle.std.specs.Prelude.{◌≡◌};
ghost use Rattle.cp_frontend.specs.declared.refusal.Refusal.TheVariants as refusal;
ghost use Rattle.cp_cli_sources.specs.declared.failure.Failure.TheVariants as failure;

use cp_cli_inputs::error::InputError;
use cp_frontend::refusal::{Refusal, exit_of};
use std::alloc::AllocFailed;
use std::io;
use thiserror::Error;

// The exit status if a file can't be opened, read or written.
const FAULT: u8 = 4;

/// The exit status if the arguments are wrong or ask for help.
pub const USAGE: u8 = 2;

const REFUSED: u8 = 1;

/// Why a command has no result.
#[derive(Debug, Drop, Error)]
pub enum Failure<'a> {
    /// The text or the input is refused, memory ran out, or a read or a write failed.
    #[error("{0}")]
    Refused(Refusal),
    /// The text of a file is refused, with the position in it.
    #[error("{refusal}\n{file}:{line}:{column}: see cpm explain {file}")]
    Located {
        refusal: Refusal,
        file: &'a str,
        line: usize,
        column: usize,
    },
    /// The inputs of the processes that are named make no input.
    #[error("{0}")]
    Input(InputError<'a>),
    /// The text has no process and no monitor with this name.
    #[error("error: the text has no process or monitor {name}")]
    NoMember {
        name: &'a str,
    },
    /// The text has no variable with this name.
    #[error("error: the text has no variable {name}")]
    NoVariable {
        name: &'a str,
    },
    /// The file of `explain` or of a named input can't be opened, with the system's reason.
    #[error("{file} can't be opened: {error}")]
    Unopened {
        file: &'a str,
        error: io::Error,
    },
    /// The schedules that a search found can't be written to files whose names begin like this,
    /// with the system's reason.
    #[error("{name}.stuck and {name}.fault can't be written: {error}")]
    Unsaved {
        name: &'a str,
        error: io::Error,
    },
    /// I1: a file can't be opened, and why.
    #[error("fault I1\n{file}: {reason}")]
    NoFile {
        file: &'a str,
        reason: &'static str,
    },
    /// The file of `explain` can't be read.
    #[error("{file} can't be read")]
    Unread {
        file: &'a str,
    },
}

impl<'a> Failure<'a> {
    /// The exit status: 1 if the text or the input is refused, 2 if the text hasn't what is named, 3 if
    /// memory runs out, 4 if opening, reading or writing fails.
    pub fn exit(&self) -> u8 {
        match self {
            Failure::Refused(refusal) | Failure::Located { refusal, .. } => exit_of(refusal),
            Failure::Input(error) => exit_of_input(error),
            Failure::NoMember { .. } | Failure::NoVariable { .. } => USAGE,
            Failure::Unopened { .. }
            | Failure::NoFile { .. }
            | Failure::Unsaved { .. }
            | Failure::Unread { .. } => FAULT,
        }
    }
}

impl<'a> From<Refusal> for Failure<'a> {
    ghost from_gives = { λ refusal f. f ≡ failure.Refused refusal };

    fn from(refusal: Refusal) -> Failure<'a> {
        Failure::Refused(refusal)
    }
}

impl<'a> From<InputError<'a>> for Failure<'a> {
    ghost from_gives = { λ error f. f ≡ failure.Input error };

    fn from(error: InputError<'a>) -> Failure<'a> {
        Failure::Input(error)
    }
}

impl<'a, T: Drop> From<AllocFailed<T>> for Failure<'a> {
    ghost from_gives = { λ _ f. f ≡ failure.Refused refusal.Memory };

    fn from(_error: AllocFailed<T>) -> Failure<'a> {
        Failure::Refused(Refusal::Memory)
    }
}

fn exit_of_input(error: &InputError<'_>) -> u8 {
    match error {
        InputError::Refused(refusal) => exit_of(refusal),
        InputError::NoProcess { .. } => USAGE,
        InputError::Byte { .. } => REFUSED,
        InputError::Unread { .. } => FAULT,
    }
}
