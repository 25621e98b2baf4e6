//! A copy of the state of a machine, without what was displayed.

use cp_inspect::state::ProcState;
use cp_kernel::kernel::Kernel;
use cp_private::private::Private;
use cp_private::private_box::PrivateBox;
use cp_rounds::machine::Machine;
use std::alloc::{AllocError, Global};

/// A state of a machine, and the states of its processes.
#[derive(Drop)]
pub(crate) struct Kept {
    privates: Vec<PrivateBox>,
    kernel: Kernel,
    states: Vec<ProcState>,
}

// The private state without its output.
fn quiet_copy(alloc: Global, private: &Private) -> Result<PrivateBox, AllocError> {
    let mut copy = private.copy(alloc)?;
    copy.clear_output();
    PrivateBox::new(alloc, copy)
}

// Whether a private state is the kept one, apart from its output.
fn is_same_private(alloc: Global, kept: &Private, private: &Private) -> Result<bool, AllocError> {
    if private.output().is_empty() {
        return Ok(kept.is_same(private));
    }
    let quiet = quiet_copy(alloc, private)?;
    Ok(kept.is_same(quiet.private()))
}

// Whether a process in a state does nothing by itself.
fn is_at_rest(state: ProcState) -> bool {
    matches!(
        state,
        ProcState::Unstarted
            | ProcState::Asking(_)
            | ProcState::Delayed { .. }
            | ProcState::Ended
            | ProcState::Faulted(_)
    )
}

impl Kept {
    /// The state of a machine. Fails only if memory runs out.
    pub(crate) fn of(alloc: Global, machine: &Machine) -> Result<Kept, AllocError> {
        let mut privates = Vec::new(alloc);
        let mut states = Vec::new(alloc);
        for index in 0..machine.processes() {
            if let Some(private) = machine.private(index + 1) {
                privates.push(quiet_copy(alloc, private)?)?;
            }
            states.push(machine.state(index as u32 + 1))?;
        }
        Ok(Kept {
            privates,
            kernel: machine.kernel().copy_without_transcripts(alloc)?,
            states,
        })
    }

    /// Whether a machine is in this state. Fails only if memory runs out.
    pub(crate) fn is_same(&self, alloc: Global, machine: &Machine) -> Result<bool, AllocError> {
        if !self.kernel.is_same(machine.kernel()) {
            return Ok(false);
        }
        for (index, kept) in self.privates.iter().enumerate() {
            let Some(private) = machine.private(index.saturating_add(1)) else {
                return Ok(false);
            };
            if !is_same_private(alloc, kept.private(), private)? {
                return Ok(false);
            }
        }
        Ok(true)
    }

    // The number of the operation at which a process is kept.
    fn operation(&self, index: usize) -> Option<u32> {
        Some(self.privates.get(index)?.private().position().operation)
    }

    // Whether a process of a machine, by its number from 0, is where it is kept, and at rest there.
    fn has_stayed(&self, machine: &Machine, index: usize) -> bool {
        let Some(private) = machine.private(index.saturating_add(1)) else {
            return false;
        };
        let number = u32::try_from(index.saturating_add(1)).unwrap_or(0);
        let state = machine.state(number);
        is_at_rest(state)
            && self.states.get(index).copied() == Some(state)
            && self.operation(index) == Some(private.position().operation)
    }

    /// Marks the processes of a machine that aren't where they are kept, or aren't at rest there.
    pub(crate) fn mark_moved(&self, machine: &Machine, moved: &mut [bool]) {
        for (index, mark) in moved.iter_mut().enumerate() {
            if !self.has_stayed(machine, index) {
                *mark = true;
            }
        }
    }
}
