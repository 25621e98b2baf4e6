//! What a process has written.

ghost use Rattle.std.specs.Prelude.{IfOk};
ghost use Rattle.cp_outcome.specs.Transcripts.{IsTranscriptOf};

use cp_rounds::machine::Machine;
use std::alloc::{AllocError, Global};

/// The transcript of the process with this number.
///
/// # Errors
///
/// `AllocError` if memory runs out.
pub fn transcript(alloc: Global, machine: &Machine, process: u32) -> Result<Vec<u8>, AllocError>
    ensures { IfOk result (λ bytes. IsTranscriptOf process machine.now bytes.items) }
{
    let (front, back) = machine.transcript(process as usize);
    let mut bytes = Vec::from_slice(alloc, front)?;
    bytes.extend_from_slice(back)?;
    Ok(bytes)
}
