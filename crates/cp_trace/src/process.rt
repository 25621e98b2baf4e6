//! A process as it was seen last, and its changes since.

use crate::changes::{Change, Output, Step};
use crate::owners::word;
use crate::values::Values;
use crate::vocabulary::Vocabulary;
use cp_inspect::component_table::Owner;
use cp_inspect::inspect::Inspect;
use cp_inspect::leaves::Leaf;
use cp_inspect::state::ProcState;
use std::alloc::{AllocError, Global};

/// A process as it was seen last.
#[derive(Drop)]
pub(crate) struct SeenProcess {
    number: u32,
    state: ProcState,
    /// The length of its transcript.
    written: usize,
    values: Values,
}

// The bytes from an index on.
fn from(bytes: &[u8], index: usize) -> &[u8] {
    &bytes[index.min(bytes.len())..]
}

// The length of the transcript of a process.
fn written<M: Inspect>(machine: &M, number: u32) -> usize {
    let (kernel, own) = machine.transcript_of(number);
    kernel.len().saturating_add(own.len())
}

impl SeenProcess {
    /// A process of a machine with variables at these places, as it is.
    pub(crate) fn of<M: Inspect>(
        alloc: Global,
        number: u32,
        leaves: &[Leaf],
        machine: &M,
    ) -> Result<SeenProcess, AllocError> {
        Ok(SeenProcess {
            number,
            state: machine.state_of(number),
            written: written(machine, number),
            values: Values::of(alloc, Owner::Process(number), leaves, machine)?,
        })
    }

    fn push_status<'a, M: Inspect>(
        &mut self,
        alloc: Global,
        vocabulary: &Vocabulary<'_>,
        machine: &M,
        changes: &mut Vec<Change<'a>>,
    ) -> Result<(), AllocError> {
        let state = machine.state_of(self.number);
        if state == self.state {
            return Ok(());
        }
        let monitors = &vocabulary.component_table.monitors;
        changes.push(Change::Status(Step {
            from: machine.words_of(alloc, monitors, self.state)?,
            to: machine.words_of(alloc, monitors, state)?,
        }))?;
        self.state = state;
        Ok(())
    }

    fn push_output<'a, M: Inspect>(
        &mut self,
        alloc: Global,
        machine: &M,
        changes: &mut Vec<Change<'a>>,
    ) -> Result<(), AllocError> {
        let written = written(machine, self.number);
        if written <= self.written {
            return Ok(());
        }
        let (kernel, own) = machine.transcript_of(self.number);
        let mut text = String::from_utf8_lossy(alloc, from(kernel, self.written))?;
        let seen = self.written.saturating_sub(kernel.len());
        text.push_str(word(from(own, seen)))?;
        changes.push(Change::Out(Output { text }))?;
        self.written = written;
        Ok(())
    }

    /// The changes since the process was seen last: of its status, its output, and its variables at
    /// these places. It has then been seen.
    pub(crate) fn changes<'a, 't: 'a, M: Inspect>(
        &mut self,
        alloc: Global,
        vocabulary: &Vocabulary<'t>,
        leaves: &'a [Leaf],
        machine: &M,
    ) -> Result<Vec<Change<'a>>, AllocError> {
        let mut changes = Vec::new(alloc);
        self.push_status(alloc, vocabulary, machine, &mut changes)?;
        self.push_output(alloc, machine, &mut changes)?;
        self.values
            .push_changes(vocabulary, leaves, machine, &mut changes)?;
        Ok(changes)
    }
}
