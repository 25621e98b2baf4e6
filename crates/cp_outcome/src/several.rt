//! What several processes have written, one after another.

ghost use Rattle.std.specs.Prelude.{◌≡◌, ◌++◌, IfOk, OnOk};
ghost use Rattle.cp_outcome.specs.Transcripts.{AreSectionsOf, AreTranscriptsOf, IsSectionOf, heading};

use crate::transcript::transcript;
use cp_base_digits::decimal::push_natural;
use cp_inspect::component_table::ComponentTable;
use cp_rounds::machine::Machine;
use std::alloc::{AllocError, Global};

// The line before the transcript of a process.
fn heading_of(alloc: Global, process: u32, name: &[u8]) -> Result<Vec<u8>, AllocError>
    ensures { IfOk result (λ bytes. bytes.items ≡ heading process name.now) }
{
    let mut bytes = Vec::new(alloc);
    bytes.extend_from_slice(b"process ")?;
    push_natural(&mut bytes, u64::from(process))?;
    bytes.extend_from_slice(b" ")?;
    bytes.extend_from_slice(name)?;
    bytes.extend_from_slice(b"\n")?;
    Ok(bytes)
}

// The heading and the transcript of a process with this name.
fn section(
    alloc: Global,
    machine: &Machine,
    process: u32,
    name: &[u8],
) -> Result<Vec<u8>, AllocError>
    ensures { IfOk result (λ bytes. IsSectionOf process machine.now bytes.items) }
{
    let mut bytes = heading_of(alloc, process, name)?;
    let text = transcript(alloc, machine, process)?;
    bytes.extend_from_slice(&text)?;
    bytes.extend_from_slice(b"\n")?;
    Ok(bytes)
}

// The sections of these processes, in their order.
fn sections(alloc: Global, machine: &Machine, processes: &[u32]) -> Result<Vec<u8>, AllocError>
    ensures { IfOk result (λ bytes. AreSectionsOf processes.now machine.now bytes.items) }
{
    let components = ComponentTable::of(alloc, machine.tables())?;
    let mut bytes = Vec::new(alloc);
    for process in processes {
        let name = components.process_name(*process);
        let made = section(alloc, machine, *process, name)?;
        bytes.extend_from_slice(&made)?;
    }
    Ok(bytes)
}

/// The transcript of one process alone. Of several processes each has a line with its number and its
/// name before its transcript, and a line feed after it.
///
/// # Errors
///
/// `AllocError` if memory runs out.
pub fn transcripts(
    alloc: Global,
    machine: &Machine,
    processes: &[u32],
) -> Result<Vec<u8>, AllocError>
    ensures { IfOk result (λ bytes. AreTranscriptsOf processes.now machine.now bytes.items) }
{
    if processes.len() == 1 {
        transcript(alloc, machine, processes[0])
    } else {
        sections(alloc, machine, processes)
    }
}
