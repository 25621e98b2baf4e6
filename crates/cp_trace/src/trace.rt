//! A machine as it was seen last, and its changes since.

use crate::changes::{Change, Changes};
use crate::monitor::SeenMonitor;
use crate::owners::{chosen, name_of};
use crate::process::SeenProcess;
use crate::shapes::Shapes;
use crate::topic::Topic;
use crate::vocabulary::Vocabulary;
use cp_inspect::component_table::Owner;
use cp_inspect::inspect::Inspect;
use cp_inspect::leaves::Leaf;
use std::alloc::{AllocError, Global};

// A process or monitor as it was seen last.
#[derive(Drop)]
enum Seen {
    Process(SeenProcess),
    Monitor(SeenMonitor),
}

impl Seen {
    // A process or monitor with variables at these places, as it is.
    fn of<M: Inspect>(
        alloc: Global,
        owner: Owner,
        leaves: &[Leaf],
        machine: &M,
    ) -> Result<Seen, AllocError> {
        Ok(match owner {
            Owner::Process(number) => {
                Seen::Process(SeenProcess::of(alloc, number, leaves, machine)?)
            }
            Owner::Monitor(number) => {
                Seen::Monitor(SeenMonitor::of(alloc, number, leaves, machine)?)
            }
        })
    }

    fn changes<'a, 't: 'a, M: Inspect>(
        &mut self,
        alloc: Global,
        vocabulary: &Vocabulary<'t>,
        leaves: &'a [Leaf],
        machine: &M,
    ) -> Result<Vec<Change<'a>>, AllocError> {
        match self {
            Seen::Process(process) => process.changes(alloc, vocabulary, leaves, machine),
            Seen::Monitor(monitor) => monitor.changes(alloc, vocabulary, leaves, machine),
        }
    }
}

// A process or monitor that a trace reports.
#[derive(Drop)]
struct Traced {
    owner: Owner,
    /// The number of the shape of its variables.
    shape: usize,
    seen: Seen,
}

/// The processes and monitors that a trace reports, as they were seen last.
#[derive(Drop)]
pub struct Trace<'t> {
    pub(crate) alloc: Global,
    vocabulary: Vocabulary<'t>,
    shapes: Shapes,
    all: Vec<Traced>,
}

impl<'t> Trace<'t> {
    /// The trace of a machine from what it is now.
    ///
    /// # Errors
    ///
    /// `AllocError` if memory runs out.
    pub(crate) fn of<M: Inspect>(
        alloc: Global,
        topic: Topic<'_, 't>,
        machine: &M,
    ) -> Result<Trace<'t>, AllocError> {
        let owners = chosen(alloc, &topic.component_table, topic.only)?;
        let mut trace = Trace {
            alloc,
            vocabulary: Vocabulary::of(alloc, topic.key, topic.component_table, topic.tree)?,
            shapes: Shapes::new(alloc),
            all: Vec::new(alloc),
        };
        for owner in &owners {
            trace.add(machine, *owner)?;
        }
        Ok(trace)
    }

    fn add<M: Inspect>(&mut self, machine: &M, owner: Owner) -> Result<(), AllocError> {
        let row = self.vocabulary.type_of(owner);
        let shape = self.shapes.number_of(self.alloc, machine, row)?;
        let leaves = self.shapes.leaves(shape);
        self.all.push(Traced {
            owner,
            shape,
            seen: Seen::of(self.alloc, owner, leaves, machine)?,
        })?;
        Ok(())
    }

    /// The changes since the machine was seen last, for each process and monitor that changed. The
    /// machine has then been seen.
    ///
    /// # Errors
    ///
    /// `AllocError` if memory runs out. The trace is then of no further use.
    pub(crate) fn changes<M: Inspect>(
        &mut self,
        machine: &M,
    ) -> Result<Vec<Changes<'_>>, AllocError> {
        changes_of(
            self.alloc,
            &mut self.all,
            &self.vocabulary,
            &self.shapes,
            machine,
        )
    }
}

// What changed of all of them. The result borrows their places, but not them.
fn changes_of<'a, 't: 'a, M: Inspect>(
    alloc: Global,
    all: &mut [Traced],
    vocabulary: &Vocabulary<'t>,
    shapes: &'a Shapes,
    machine: &M,
) -> Result<Vec<Changes<'a>>, AllocError> {
    let mut changed = Vec::new(alloc);
    for traced in all.iter_mut() {
        let leaves = shapes.leaves(traced.shape);
        let changes = traced.seen.changes(alloc, vocabulary, leaves, machine)?;
        if !changes.is_empty() {
            changed.push(Changes {
                owner: traced.owner,
                name: name_of(&vocabulary.component_table, traced.owner),
                changes,
            })?;
        }
    }
    Ok(changed)
}
