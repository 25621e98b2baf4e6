//! Checking an input, and cutting it into the inputs of the processes.

ghost use Rattle.std.specs.Prelude.{◌≡◌, ◌≤◌, ◌+◌, ℕ, suc, IfOk, Some, drop, length, slice_get, take};
ghost use Rattle.cp_model.specs.Input.{cut};
ghost use Rattle.cp_frontend.specs.Cutting.{AreInputs, after_separator, front_part, judge_input};

use crate::refusal::Refusal;
use cp_model::ordinals::LAST_CHARACTER;
use std::alloc::{AllocError, Global};

/// The largest number of bytes that an input may have.
pub const MAX_INPUT_BYTES: usize = 1_048_576;

// The byte between the inputs of two processes.
pub(crate) const SEPARATOR: u8 = 28;

/// Refuses an input that is too long, or else the first byte of it that is not a character.
///
/// # Errors
///
/// I4 (`InputSize`) or I3 (`InputByte`), checked in this order.
pub fn check_input(input: &[u8]) -> Result<(), Refusal>
    ensures { result ≡ judge_input input.now }
{
    if MAX_INPUT_BYTES < input.len() {
        return Err(Refusal::InputSize);
    }
    for (at, byte) in input.iter().enumerate() {
        if LAST_CHARACTER < *byte {
            return Err(Refusal::InputByte { at });
        }
    }
    Ok(())
}

// The length of the first part of an input.
fn part_length(input: &[u8]) -> usize
    ensures within { result ≤ length input.now }
    ensures front { take result input.now ≡ front_part input.now }
    ensures rest { drop (result + 1) input.now ≡ after_separator input.now }
{
    for (at, byte) in input.iter().enumerate() {
        if *byte == SEPARATOR {
            return at;
        }
    }
    input.len()
}

// The input after its first part and the separator.
fn rest(input: &[u8], part: usize) -> &[u8]
    requires { part ≤ length input.now }
    ensures { result.now ≡ drop (part + 1) input.now }
{
    if part < input.len() {
        &input[part + 1..]
    } else {
        &[]
    }
}

/// Cuts an input into the inputs of `processes` processes: the parts between bytes 28. A missing
/// part is empty.
///
/// # Errors
///
/// `AllocError` if memory runs out.
pub fn cut_input(alloc: Global, input: &[u8], processes: usize) -> Result<Vec<Vec<u8>>, AllocError>
    ensures parts { IfOk result (λ all. AreInputs (cut input.now) processes all.items) }
{
    let mut all = Vec::with_capacity(alloc, processes)?;
    let mut left = input;
    for _p in 0..processes {
        let part = part_length(left);
        all.push(Vec::from_slice(alloc, &left[..part])?)?;
        left = rest(left, part);
    }
    Ok(all)
}
