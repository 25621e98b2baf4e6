//! The walk over an accepted text, and what it knows on its way.

use crate::flow::Flow;
use crate::initialisation::Inits;
use crate::note::Notes;
use crate::queue_uses::QueueUses;
use crate::queues::Queues;
use cp_base_names::Key;
use cp_explain_meanings::names::Names;
use cp_model::tree::{Identifier, Routine, Sort, System};
use std::alloc::{AllocError, Global};
use std::collections::BTreeMap;

/// What is known of a routine that was walked over.
#[derive(Clone, Copy)]
pub struct Behaviour<'t> {
    pub(crate) routine: &'t Routine,
    /// Whether it leads to a `delay`.
    pub(crate) delays: bool,
    /// The queue, by its number in the text, in which the routine surely delays its caller.
    pub(crate) queue: Option<usize>,
}

/// A system type, and the calls of its body that surely delay, by their numbers.
#[derive(Clone, Copy)]
pub struct SystemType<'t> {
    pub(crate) system: &'t System,
    pub(crate) first_call: usize,
    pub(crate) last_call: usize,
}

/// The body that is walked over.
#[derive(Clone, Copy)]
pub struct Inside<'t> {
    /// The sort of the component that has this body. The initial process is a process.
    pub(crate) sort: Sort,
    pub(crate) is_initial: bool,
    /// The routine, unless this is the body of the component itself.
    pub(crate) routine: Option<&'t Routine>,
    /// Whether something so far leads to a `delay`.
    pub(crate) delays: bool,
    /// The queue in which the routine surely delays its caller, by its number.
    pub(crate) queue: Option<usize>,
    /// Whether something so far depends on queues: the routine may return early by a `continue`, or
    /// tests whether a queue is empty.
    pub(crate) minds_queues: bool,
    /// Whether something so far sets the result.
    pub(crate) sets_result: bool,
    /// How many statements that run on conditions the current one is in.
    pub(crate) conditions: usize,
}

impl<'t> Inside<'t> {
    /// The start of a body of a component of this sort.
    pub fn body(sort: Sort, is_initial: bool) -> Inside<'t> {
        Inside {
            sort,
            is_initial,
            routine: None,
            delays: false,
            queue: None,
            minds_queues: false,
            sets_result: false,
            conditions: 0,
        }
    }

    /// The start of a routine of the same component.
    pub fn of_routine(self, routine: &'t Routine) -> Inside<'t> {
        Inside {
            routine: Some(routine),
            ..Inside::body(self.sort, self.is_initial)
        }
    }

    /// The function, if this is one.
    pub fn function(self) -> Option<&'t Routine> {
        let routine = self.routine?;
        let _of = routine.result_type.as_ref()?;
        Some(routine)
    }

    /// Whether this is an entry routine.
    pub fn is_entry(self) -> bool {
        match self.routine {
            Some(routine) => routine.entry.is_some(),
            None => false,
        }
    }
}

/// What is known on the way through a text.
#[derive(Drop)]
pub struct Walk<'t> {
    pub(crate) alloc: Global,
    pub(crate) key: Key,
    pub(crate) names: Names<'t>,
    pub(crate) notes: Notes<'t>,
    /// The routines so far, by their numbers.
    pub(crate) routines: Vec<Behaviour<'t>>,
    /// The system types so far, by the places of their names.
    pub(crate) systems: BTreeMap<usize, SystemType<'t>>,
    pub(crate) inside: Inside<'t>,
    pub(crate) flow: Flow,
    pub(crate) inits: Inits<'t>,
    /// The variables of the `for` loops around the statement, outermost first.
    pub(crate) counters: Vec<&'t Identifier>,
    pub(crate) queues: Queues<'t>,
    pub(crate) queue_uses: QueueUses<'t>,
}

impl<'t> Walk<'t> {
    /// The start of a text. Fails only if memory runs out.
    pub fn new(alloc: Global, key: Key) -> Result<Walk<'t>, AllocError> {
        Ok(Walk {
            alloc,
            key,
            names: Names::standard(alloc, key)?,
            notes: Notes::new(alloc),
            routines: Vec::new(alloc),
            systems: BTreeMap::new(alloc),
            inside: Inside::body(Sort::Process, true),
            flow: Flow::START,
            inits: Inits::new(alloc, key),
            counters: Vec::new(alloc),
            queues: Queues::new(alloc, key),
            queue_uses: QueueUses::new(alloc),
        })
    }

    /// What is known of the routine with a number.
    pub fn behaviour(&self, number: usize) -> Option<Behaviour<'t>> {
        self.routines.get(number).copied()
    }
}
