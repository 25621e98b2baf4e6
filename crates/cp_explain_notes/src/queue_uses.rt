//! Notes on calls that delay: of two processes in one queue, and inside of another monitor.
//!
//! Only calls that a process's own body makes on no condition are followed to a queue. Through a
//! monitor, two processes can't come there at the same time, since the first one keeps its gate.

use crate::note::NoteKind;
use crate::walk::{SystemType, Walk};
use cp_base_names::NameTable;
use cp_explain_meanings::meaning::{Meaning, Shape};
use cp_model::tree::{Designator, Expression, Identifier, InitItem, Parameters, Routine, Sort};
use std::alloc::{AllocError, Global};
use std::collections::{BTreeMap, BTreeSet};

// A call of a process's body that surely delays: the right by which the monitor is called, and the
// number of the queue.
#[derive(Clone, Copy)]
struct DelayingCall<'t> {
    right: &'t [u8],
    queue: usize,
}

// A queue of a monitor of the initial process.
#[derive(Clone, Copy, PartialEq, Eq, PartialOrd, Ord)]
struct QueueInstance<'t> {
    queue: usize,
    monitor: &'t [u8],
}

/// The calls that surely delay, and who makes them.
#[derive(Drop)]
pub struct QueueUses<'t> {
    calls: Vec<DelayingCall<'t>>,
    // The first process that comes to each queue.
    first: BTreeMap<QueueInstance<'t>, &'t [u8]>,
    // The queues, by their numbers, that a note is about already.
    reported: BTreeSet<usize>,
}

impl<'t> QueueUses<'t> {
    pub fn new(alloc: Global) -> QueueUses<'t> {
        QueueUses {
            calls: Vec::new(alloc),
            first: BTreeMap::new(alloc),
            reported: BTreeSet::new(alloc),
        }
    }

    /// The number of calls so far.
    pub fn calls(&self) -> usize {
        self.calls.len()
    }

    // Adds a process to those that come to a queue. Returns another one that does.
    fn add(
        &mut self,
        queue_instance: QueueInstance<'t>,
        process: &'t [u8],
    ) -> Result<Option<&'t [u8]>, AllocError> {
        match self.first.get(&queue_instance).copied() {
            Some(other) if other == process => Ok(None),
            Some(other) => Ok(Some(other)),
            None => match self.first.insert(queue_instance, process) {
                Ok(_) => Ok(None),
                Err(_) => Err(AllocError),
            },
        }
    }

    // Whether a note is about a queue already. From now on one is.
    fn report(&mut self, queue: usize) -> Result<bool, AllocError> {
        match self.reported.insert(queue) {
            Ok(is_new) => Ok(!is_new),
            Err(_) => Err(AllocError),
        }
    }
}

/// The name that the initial process has in reports and graphs.
const INITIAL: &[u8] = b"initial";

impl<'t> Walk<'t> {
    /// Notes a call that leads to a `delay`, if it is in a monitor.
    pub(crate) fn keeps_gate(
        &mut self,
        designator: &'t Designator,
        routine: &'t Routine,
    ) -> Result<(), AllocError> {
        match self.inside.sort {
            Sort::Monitor => {
                let name = routine.name.name.as_bytes();
                self.notes
                    .add_on(designator.root.at, NoteKind::KeepsGate, name)
            }
            _ => Ok(()),
        }
    }

    /// Walks over a call of the monitor with this name that surely delays in a queue.
    pub(crate) fn comes_to(
        &mut self,
        name: &'t Identifier,
        queue: usize,
    ) -> Result<(), AllocError> {
        let right = name.name.as_bytes();
        if self.inside.conditions > 0 {
            return Ok(());
        }
        match (self.inside.sort, self.inside.routine) {
            (Sort::Process, None) if self.inside.is_initial => self.meets(INITIAL, right, queue),
            (Sort::Process, None) => {
                self.queue_uses.calls.push(DelayingCall { right, queue })?;
                Ok(())
            }
            _ => Ok(()),
        }
    }

    // Notes that a process comes to a queue of a monitor to which another one comes, too.
    fn meets(
        &mut self,
        process: &'t [u8],
        monitor: &'t [u8],
        queue: usize,
    ) -> Result<(), AllocError> {
        let Some(other) = self
            .queue_uses
            .add(QueueInstance { queue, monitor }, process)?
        else {
            return Ok(());
        };
        let place = match self.queues.get(queue) {
            Some(found) => found.sure,
            None => None,
        };
        match place {
            Some(at) if !self.queue_uses.report(queue)? => {
                self.notes
                    .add_on_both(at, NoteKind::TwoInOneQueue, other, process)
            }
            _ => Ok(()),
        }
    }

    /// The system type of a component.
    pub(crate) fn system_of(&self, name: &Identifier) -> Option<SystemType<'t>> {
        match self.names.find(name)? {
            Meaning::Variable(Shape::System(_, at)) => self.systems.get(&at).copied(),
            _ => None,
        }
    }

    /// Walks over the start of a process, which gets its rights. One that starts on a condition is
    /// not followed.
    pub(crate) fn starts(&mut self, item: &'t InitItem) -> Result<(), AllocError> {
        let Some(defined) = self.system_of(&item.component) else {
            return Ok(());
        };
        if self.inside.conditions > 0 || defined.first_call == defined.last_call {
            return Ok(());
        }
        let rights = self.rights(&defined.system.parameters, &item.arguments)?;
        for number in defined.first_call..defined.last_call {
            if let Some(call) = self.queue_uses.calls.get(number).copied() {
                if let Some(monitor) = rights.find(call.right) {
                    self.meets(item.component.name.as_bytes(), monitor, call.queue)?;
                }
            }
        }
        Ok(())
    }

    // The components that are handed to parameters, by the names of these.
    fn rights(
        &self,
        groups: &'t [Parameters],
        list: &'t [Expression],
    ) -> Result<NameTable<'t, &'t [u8]>, AllocError> {
        let mut rights = NameTable::new(self.alloc, self.key);
        let mut first: usize = 0;
        for group in groups {
            hand_over(&mut rights, &group.names, list, first)?;
            first = first.saturating_add(group.names.len());
        }
        Ok(rights)
    }
}

// Adds what the arguments from the one with number `first` on hand to the parameters with these
// names.
fn hand_over<'t>(
    rights: &mut NameTable<'t, &'t [u8]>,
    names: &'t [Identifier],
    list: &'t [Expression],
    first: usize,
) -> Result<(), AllocError> {
    for number in 0..names.len() {
        let name = names[number].name.as_bytes();
        if let Some(Expression::Designated(d)) = list.get(first.saturating_add(number)) {
            if rights.find(name).is_none() {
                rights.add(name, d.root.name.as_bytes())?;
            }
        }
    }
    Ok(())
}
