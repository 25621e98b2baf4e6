//! Which entries of a monitor continue a queue, as its text says.

use crate::parts::Parts;
use cp_model::tree::{Expression, Identifier, Routine, Statement, System};
use std::alloc::{AllocError, Global};

// Whether these are arguments of which the first is this queue, or an element of it.
fn is_queue(arguments: &[Expression], queue: &[u8]) -> bool {
    match arguments.first() {
        Some(Expression::Designated(d)) => d.root.name.as_bytes() == queue,
        _ => false,
    }
}

// The place of a `continue` of this queue.
fn continue_place(statement: &Statement, queue: &[u8]) -> Option<usize> {
    let Statement::Call(call) = statement else {
        return None;
    };
    let root = &call.procedure.root;
    let is_continue = root.name.as_bytes() == b"continue".as_slice();
    if is_continue && is_queue(&call.arguments, queue) {
        Some(root.at)
    } else {
        None
    }
}

/// The entries that continue a queue, and the places of their `continue` statements.
#[derive(Drop)]
pub struct Continuers<'t> {
    pub entries: Vec<&'t Identifier>,
    pub places: Vec<usize>,
}

impl<'t> Continuers<'t> {
    fn add(&mut self, alloc: Global, routine: &'t Routine, queue: &[u8]) -> Result<(), AllocError> {
        let before = self.places.len();
        let mut parts = Parts::new(alloc);
        parts.add(&routine.body.statements)?;
        for s in &parts.statements {
            if let Some(at) = continue_place(s, queue) {
                self.places.push(at)?;
            }
        }
        if before < self.places.len() {
            self.entries.push(&routine.name)?;
        }
        Ok(())
    }
}

/// The entries of a monitor that have a `continue` of its queue with this name or, if it is an
/// array, of an element of it. Fails only if memory runs out.
pub fn continuers_of<'t>(
    alloc: Global,
    monitor: &'t System,
    queue: &[u8],
) -> Result<Continuers<'t>, AllocError> {
    let mut continuers = Continuers {
        entries: Vec::new(alloc),
        places: Vec::new(alloc),
    };
    for routine in &monitor.routines {
        continuers.add(alloc, routine, queue)?;
    }
    Ok(continuers)
}
