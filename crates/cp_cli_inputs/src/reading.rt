//! Reading the inputs of the processes that are named.

ghost use Rattle.std.specs.Prelude.{◌≡◌, IfOk, IfSome, None};
ghost use Rattle.cp_model.specs.Abstract.{Process};
ghost use Rattle.cp_frontend.specs.Inputs.{misplaced_from};
ghost use Rattle.cp_frontend.specs.Takings.{front};
ghost use Rattle.cp_inspect.specs.Names.{names_of};
ghost use Rattle.cp_cli_inputs.specs.Numbers.{names_in};
ghost use Rattle.cp_cli_inputs.specs.Readings.{AreRead, ReadsNamed};

use crate::error::InputError;
use crate::named::component_table_of;
use cp_frontend::cutting::MAX_INPUT_BYTES;
use cp_frontend::inputs::{ProcessInput, ProcessInputs, misplaced};
use cp_frontend::reading::{ReadError, read_text};
use cp_frontend::refusal::Refusal;
use cp_frontend::sources::AcceptedText;
use cp_inspect::component_table::ComponentTable;
use std::alloc::{AllocError, Global};
use std::io::Read;

/// The input of the process with this name, and the name of the file that it is read from.
#[derive(Drop)]
pub struct InputOf<'a, R> {
    pub process: &'a str,
    pub file: &'a str,
    pub reader: R,
}

impl<'a, R: Read> InputOf<'a, R> {
    // Reads the input.
    fn read(&mut self, alloc: Global) -> Result<Vec<u8>, InputError<'a>>
        ensures bytes { IfOk result
            (λ bytes. IfSome (R.remaining self.old.reader) (λ xs. bytes.items ≡ front xs)) }
        ensures fit { IfOk result (λ bytes. misplaced_from 0 bytes.items ≡ None) }
    {
        let bytes = match read_text(alloc, &mut self.reader) {
            Ok(bytes) => bytes,
            Err(ReadError::Read) => return Err(InputError::Unread { file: self.file }),
            Err(ReadError::Memory) => return Err(InputError::from(AllocError)),
        };
        match misplaced(&bytes) {
            None => Ok(bytes),
            Some(at) => Err(InputError::Byte {
                file: self.file,
                at,
                byte: bytes.get(at).copied().unwrap_or(0),
            }),
        }
    }
}

// Reads the inputs. They, and a byte for each process of the text, are at most as many bytes as one
// input may have.
fn read_all<'a, R: Read + Drop>(
    alloc: Global,
    component_table: &ComponentTable<'_>,
    named: Vec<InputOf<'a, R>>,
) -> Result<Vec<ProcessInput>, InputError<'a>>
    ensures { IfOk result (λ inputs. AreRead R.remaining
        (names_of component_table.now.processes.items) named.entry.items inputs.items) }
{
    let mut length = component_table.processes.len().saturating_add(1);
    let mut inputs = Vec::new(alloc);
    for mut input in named {
        let Some(process) = component_table.process(input.process.as_bytes())? else {
            return Err(InputError::NoProcess {
                process: input.process,
            });
        };
        let bytes = input.read(alloc)?;
        length = length.saturating_add(bytes.len());
        if MAX_INPUT_BYTES < length {
            return Err(InputError::Refused(Refusal::InputSize));
        }
        inputs.push(ProcessInput { process, bytes })?;
    }
    Ok(inputs)
}

/// Reads the inputs of the processes that are named, in any letter case. Process 1 is named
/// `initial`, unless another process has that name. A process that isn't named has no input. The
/// last input of a process is the one that it reads.
///
/// # Errors
///
/// In the order of the names, `NoProcess`, `Unread` and `Byte`, and `Refused` with I4 once the
/// inputs, and a byte for each process, have more than 1,048,576 bytes. Also M. A reader is read to
/// its end or through byte 1,048,577, and no further.
pub fn read_inputs<'a, R: Read + Drop>(
    alloc: Global,
    text: &AcceptedText,
    named: Vec<InputOf<'a, R>>,
) -> Result<ProcessInputs, InputError<'a>>
    ensures { IfOk result
        (ReadsNamed R.remaining (names_in text.now Process) named.entry.items) }
{
    let component_table = component_table_of(alloc, text)?;
    Ok(ProcessInputs::Named(read_all(alloc, &component_table, named)?))
}
