//! The text and the inputs of a run, opened before anything is read.

use crate::failure::Failure;
use crate::opening::{Source, open, open_named};
use cp_cli::command::{Inputs, NamedInput};
use cp_cli_inputs::reading::{InputOf, read_inputs};
use cp_frontend::inputs::ProcessInputs;
use cp_frontend::sources::{AcceptedText, read_accepted, read_input};
use std::alloc::Global;
use std::fs::Files;
use std::io::{Input, Read};

/// The inputs of a run.
#[derive(Drop)]
pub enum Opened<'a, F, I> {
    /// One for all processes.
    One(Source<F, I>),
    /// One for each process that is named.
    Named(Vec<InputOf<'a, Source<F, I>>>),
}

fn open_all<'a, H: Files + Input>(
    rt: &H,
    alloc: Global,
    inputs: &[NamedInput<'a>],
) -> Result<Vec<InputOf<'a, Source<H::File, H::Reader>>>, Failure<'a>> {
    let mut all = Vec::new(alloc);
    for input in inputs {
        all.push(InputOf {
            process: input.process,
            file: input.file,
            reader: open_named(rt, input.file)?,
        })?;
    }
    Ok(all)
}

/// Opens the inputs.
///
/// # Errors
///
/// I1 if the file of all inputs can't be opened, `Unopened` if that of one process can't, M if
/// memory runs out.
pub fn open_inputs<'a, H: Files + Input>(
    rt: &H,
    alloc: Global,
    inputs: &Inputs<'a>,
) -> Result<Opened<'a, H::File, H::Reader>, Failure<'a>> {
    Ok(match inputs {
        Inputs::Empty => Opened::One(Source::of_bytes(Vec::new(alloc))),
        Inputs::Joined(file) => Opened::One(open(rt, file)?),
        Inputs::Named(all) => Opened::Named(open_all(rt, alloc, all)?),
    })
}

impl<'a, F: Read + Drop, I: Read + Drop> Opened<'a, F, I> {
    /// Reads the inputs of the processes of a text.
    ///
    /// # Errors
    ///
    /// I1, I4 or I3 if there is one input, and the errors of `read_inputs` if there are several.
    pub fn read(self, alloc: Global, text: &AcceptedText) -> Result<ProcessInputs, Failure<'a>> {
        match self {
            Opened::One(mut source) => Ok(ProcessInputs::Joined(read_input(alloc, &mut source)?)),
            Opened::Named(named) => Ok(read_inputs(alloc, text, named)?),
        }
    }
}

/// What a run reads: a text that is accepted, and inputs that are still to be read.
#[derive(Drop)]
pub struct Sources<'a, F, I> {
    pub text: AcceptedText,
    pub inputs: Opened<'a, F, I>,
}

/// Opens a text, where `-` is standard input, and then its inputs, and reads the text.
///
/// # Errors
///
/// I1 if the text can't be opened, those of opening inputs, and those of `read_accepted`.
pub fn open_sources<'a, H: Files + Input>(
    rt: &H,
    alloc: Global,
    file: &'a str,
    inputs: &Inputs<'a>,
) -> Result<Sources<'a, H::File, H::Reader>, Failure<'a>> {
    let mut text = open(rt, file)?;
    let inputs = open_inputs(rt, alloc, inputs)?;
    let text = read_accepted(alloc, &mut text)?;
    Ok(Sources { text, inputs })
}
