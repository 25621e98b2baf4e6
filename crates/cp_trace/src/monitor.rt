//! A monitor as it was seen last, and its changes since.

use crate::changes::{Change, Step};
use crate::values::Values;
use crate::vocabulary::Vocabulary;
use cp_inspect::component_table::Owner;
use cp_inspect::inspect::Inspect;
use cp_inspect::leaves::Leaf;
use cp_private::kernel_view::Holder;
use std::alloc::{AllocError, Global};

/// A monitor as it was seen last.
#[derive(Drop)]
pub(crate) struct SeenMonitor {
    number: u32,
    holder: Holder,
    askers: Vec<u32>,
    values: Values,
}

impl SeenMonitor {
    /// A monitor of a machine with variables at these places, as it is.
    pub(crate) fn of<M: Inspect>(
        alloc: Global,
        number: u32,
        leaves: &[Leaf],
        machine: &M,
    ) -> Result<SeenMonitor, AllocError> {
        Ok(SeenMonitor {
            number,
            holder: machine.holder_of(number),
            askers: Vec::from_slice(alloc, machine.askers_of(number))?,
            values: Values::of(alloc, Owner::Monitor(number), leaves, machine)?,
        })
    }

    fn push_holder<'a, 't: 'a, M: Inspect>(
        &mut self,
        vocabulary: &Vocabulary<'t>,
        machine: &M,
        changes: &mut Vec<Change<'a>>,
    ) -> Result<(), AllocError> {
        let holder = machine.holder_of(self.number);
        if holder == self.holder {
            return Ok(());
        }
        changes.push(Change::Gate(Step {
            from: vocabulary.holder(self.holder),
            to: vocabulary.holder(holder),
        }))?;
        self.holder = holder;
        Ok(())
    }

    fn push_askers<'a, 't: 'a, M: Inspect>(
        &mut self,
        vocabulary: &Vocabulary<'t>,
        machine: &M,
        changes: &mut Vec<Change<'a>>,
    ) -> Result<(), AllocError> {
        let askers = machine.askers_of(self.number);
        if askers == self.askers.as_slice() {
            return Ok(());
        }
        changes.push(Change::Askers(Step {
            from: vocabulary.processes(&self.askers)?,
            to: vocabulary.processes(askers)?,
        }))?;
        self.askers.clear();
        self.askers.extend_from_slice(askers)
    }

    /// The changes since the monitor was seen last: of its gate, its askers, and its variables and
    /// queues at these places. It has then been seen.
    pub(crate) fn changes<'a, 't: 'a, M: Inspect>(
        &mut self,
        alloc: Global,
        vocabulary: &Vocabulary<'t>,
        leaves: &'a [Leaf],
        machine: &M,
    ) -> Result<Vec<Change<'a>>, AllocError> {
        let mut changes = Vec::new(alloc);
        self.push_holder(vocabulary, machine, &mut changes)?;
        self.push_askers(vocabulary, machine, &mut changes)?;
        self.values
            .push_changes(vocabulary, leaves, machine, &mut changes)?;
        Ok(changes)
    }
}
