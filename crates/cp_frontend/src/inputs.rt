//! What each process of a text reads, and which bytes it can't read.

ghost use Rattle.std.specs.Prelude.{◌≡◌, IfOk, None, []};
ghost use Rattle.cp_frontend.specs.Cutting.{AreInputs, front_part};
ghost use Rattle.cp_frontend.specs.Inputs.{given, inputs_of, misplaced_from};

use crate::cutting::{SEPARATOR, cut_input};
use cp_model::ordinals::LAST_CHARACTER;
use std::alloc::{AllocError, Global};

/// The input of the process with this number.
#[derive(Drop)]
pub struct ProcessInput {
    pub process: u32,
    pub bytes: Vec<u8>,
}

/// What each process reads.
#[derive(Drop)]
pub enum ProcessInputs {
    /// The bytes are cut at each byte 28. Process 1 reads the first part, and so on.
    Joined(Vec<u8>),
    /// A process reads the last of these inputs that has its number, or nothing.
    Named(Vec<ProcessInput>),
}

/// The place of the first byte that can't be in a process's input: a byte above 127, or byte 28,
/// which separates inputs.
pub fn misplaced(input: &[u8]) -> Option<usize>
    ensures place { result ≡ misplaced_from 0 input.now }
    ensures whole { result ≡ None → front_part input.now ≡ input.now }
{
    for (at, byte) in input.iter().enumerate() {
        if LAST_CHARACTER < *byte || *byte == SEPARATOR {
            return Some(at);
        }
    }
    None
}

// What a process reads of these inputs: the last that has its number, or nothing.
fn input_of(inputs: &[ProcessInput], process: usize) -> &[u8]
    ensures { result.now ≡ given [] inputs.now process }
{
    let mut found: &[u8] = &[];
    for input in inputs {
        if input.process as usize == process {
            found = &input.bytes;
        }
    }
    found
}

// What each of so many processes reads of these inputs.
fn named_inputs(
    alloc: Global,
    inputs: &[ProcessInput],
    processes: usize,
) -> Result<Vec<Vec<u8>>, AllocError>
    ensures { IfOk result (λ all. AreInputs (given [] inputs.now) processes all.items) }
{
    let mut all = Vec::with_capacity(alloc, processes)?;
    for index in 0..processes {
        let input = input_of(inputs, index + 1);
        all.push(Vec::from_slice(alloc, input)?)?;
    }
    Ok(all)
}

impl ProcessInputs {
    /// What each of `processes` processes reads, in the order of their numbers.
    ///
    /// # Errors
    ///
    /// `AllocError` if memory runs out.
    pub fn by_process(&self, alloc: Global, processes: usize) -> Result<Vec<Vec<u8>>, AllocError>
        ensures { IfOk result (λ all. AreInputs (inputs_of self.now) processes all.items) }
    {
        match self {
            ProcessInputs::Joined(bytes) => cut_input(alloc, bytes, processes),
            ProcessInputs::Named(inputs) => named_inputs(alloc, inputs, processes),
        }
    }
}
