//! The text and the inputs of a command that writes an object, also if the text is refused.

use crate::failure::Failure;
use crate::inputs::{Sources, open_inputs};
use crate::opening::{open, read_bytes};
use crate::printing::print_bytes;
use cp_cli::command::Inputs;
use cp_explain::refused_object::refused_object;
use cp_frontend::checking::accept;
use cp_frontend::refusal::Refusal;
use cp_frontend::sources::AcceptedText;
use std::alloc::Global;
use std::fs::Files;
use std::io::{Input, Print, Read};

// Prints an object that says why a text is refused.
fn print_refused<'a, H: Print>(
    rt: &H,
    alloc: Global,
    file: &'a str,
    text: &[u8],
) -> Result<(), Failure<'a>> {
    match refused_object(alloc, file.as_bytes(), text) {
        Ok(Some(refused)) => Ok(print_bytes(rt, &refused.page)?),
        Ok(None) => Ok(()),
        Err(_) => Err(Failure::Refused(Refusal::Memory)),
    }
}

// Reads a text. If it is refused, prints an object that says so.
fn read_judged<'a, H: Print, R: Read>(
    rt: &H,
    alloc: Global,
    file: &'a str,
    text: &mut R,
) -> Result<AcceptedText, Failure<'a>> {
    let bytes = read_bytes(alloc, text)?;
    match accept(alloc, &bytes) {
        Ok(accepted) => Ok(AcceptedText::new(bytes, accepted)),
        Err(Refusal::Memory) => Err(Failure::Refused(Refusal::Memory)),
        Err(refusal) => {
            print_refused(rt, alloc, file, &bytes)?;
            Err(Failure::Refused(refusal))
        }
    }
}

/// Opens a text, where `-` is standard input, and then its inputs, and reads the text. If it is
/// refused, prints an object that says so.
///
/// # Errors
///
/// Those of `open_sources`, and I2 if a write fails.
pub fn open_judged<'a, H: Files + Input + Print>(
    rt: &H,
    alloc: Global,
    file: &'a str,
    inputs: &Inputs<'a>,
) -> Result<Sources<'a, H::File, H::Reader>, Failure<'a>> {
    let mut text = open(rt, file)?;
    let inputs = open_inputs(rt, alloc, inputs)?;
    let text = read_judged(rt, alloc, file, &mut text)?;
    Ok(Sources { text, inputs })
}
