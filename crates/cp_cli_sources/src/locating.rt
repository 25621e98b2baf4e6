//! Where a text is refused: the line and the column, for whoever runs it.

use crate::failure::Failure;
use crate::opening::{open_named, read_bytes};
use cp_cli::command::STANDARD_INPUT;
use cp_cli_inputs::error::InputError;
use cp_frontend::refusal::Refusal;
use cp_output::position::Position;
use std::alloc::Global;
use std::fs::Files;
use std::io::Input;

// The place at which a text is refused, if it is.
fn place_of(refusal: &Refusal) -> Option<usize> {
    match refusal {
        Refusal::Scan { at, .. }
        | Refusal::Unexpected { at }
        | Refusal::Unfinished { at }
        | Refusal::TooDeep { at }
        | Refusal::Check { at, .. } => Some(*at),
        _ => None,
    }
}

// The position of a place of a file, if the file can be read again.
fn position_in<H: Files + Input>(rt: &H, alloc: Global, file: &str, at: usize) -> Option<Position> {
    match open_named(rt, file) {
        Ok(mut source) => match read_bytes(alloc, &mut source) {
            Ok(text) => Some(Position::of(&text, at)),
            Err(_) => None,
        },
        Err(_) => None,
    }
}

/// The failure with its position, if the text of a file is refused.
pub fn located<'a, H: Files + Input>(
    rt: &H,
    alloc: Global,
    file: &'a str,
    failure: Failure<'a>,
) -> Failure<'a> {
    match failure {
        Failure::Refused(refusal) | Failure::Input(InputError::Refused(refusal))
            if file != STANDARD_INPUT => with_position(rt, alloc, file, refusal),
        other => other,
    }
}

fn with_position<'a, H: Files + Input>(
    rt: &H,
    alloc: Global,
    file: &'a str,
    refusal: Refusal,
) -> Failure<'a> {
    let position = match place_of(&refusal) {
        Some(at) => position_in(rt, alloc, file, at),
        None => None,
    };
    match position {
        Some(Position { line, column }) => Failure::Located {
            refusal,
            file,
            line,
            column,
        },
        None => Failure::Refused(refusal),
    }
}
