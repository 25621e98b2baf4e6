//! All operations that a process can still come to, through classes, monitors and routines.

use crate::activation::Activation;
use crate::targets::Walker;
use crate::words::Words;
use cp_outcome_circles::site::Reach;
use cp_program::operation::{Call, Operation};
use std::alloc::{AllocError, Global};
use std::collections::BTreeSet;

// An operation of a component from which an activation continues, maybe by a call that is still to
// be made.
#[derive(Clone, Copy, PartialEq, Eq, PartialOrd, Ord)]
struct Visit {
    component: usize,
    operation: u32,
    is_called: bool,
}

impl Visit {
    // The same activation at an operation.
    fn at(self, operation: u32) -> Visit {
        Visit { operation, ..self }
    }
}

// The operations from which activations continue, and those of them that are left to visit.
#[derive(Drop)]
struct Frontier {
    seen: BTreeSet<Visit>,
    left: Vec<Visit>,
}

impl Frontier {
    fn add(&mut self, visit: Visit) -> Result<(), AllocError> {
        match self.seen.insert(visit) {
            Ok(true) => {
                self.left.push(visit)?;
                Ok(())
            }
            Ok(false) => Ok(()),
            Err(_) => Err(AllocError),
        }
    }
}

/// A `continue` of a monitor that is come to.
#[derive(Clone, Copy)]
pub(crate) struct Come {
    pub(crate) monitor: u32,
    /// Its operation.
    pub(crate) operation: u32,
    pub(crate) reach: Reach,
}

/// What a process can still come to.
#[derive(Drop)]
pub(crate) struct Found {
    pub(crate) continues: Vec<Come>,
    /// The processes that it can start.
    pub(crate) starts: Vec<u32>,
}

impl Walker<'_> {
    // Comes to the first operation of a unit in these components.
    fn enter(
        &self,
        routine: u32,
        components: &[usize],
        frontier: &mut Frontier,
    ) -> Result<(), AllocError> {
        let Some(unit) = self.program.unit(routine) else {
            return Ok(());
        };
        for component in components {
            frontier.add(Visit {
                component: *component,
                operation: unit.start,
                is_called: true,
            })?;
        }
        Ok(())
    }

    // Comes to the unit that an `init` calls, and notes the rights that it passes.
    fn initialise(
        &mut self,
        words: Words,
        component: usize,
        call: &Call,
        frontier: &mut Frontier,
    ) -> Result<(), AllocError> {
        let components = self.targets(words, component, call)?;
        for home in &components {
            self.note_rights(words, component, *home, &call.arguments)?;
        }
        self.enter(call.routine, &components, frontier)
    }

    // Adds what an operation calls, starts or continues.
    fn follow(
        &mut self,
        words: Words,
        visit: Visit,
        operation: &Operation,
        frontier: &mut Frontier,
        found: &mut Found,
    ) -> Result<(), AllocError> {
        match operation {
            Operation::Procedure { call, .. } | Operation::Function { call, .. } => {
                let components = self.targets(words, visit.component, call)?;
                self.enter(call.routine, &components, frontier)
            }
            Operation::InitClass { call, .. } | Operation::InitMonitor { call, .. } => {
                self.initialise(words, visit.component, call, frontier)
            }
            Operation::InitProcess {
                process,
                arguments,
                ..
            } => {
                found.starts.push(*process)?;
                self.note_parameters(words, visit.component, *process, arguments)
            }
            Operation::Continue { .. } => {
                found.continues.push(Come {
                    monitor: self.monitor_at(words, visit.component),
                    operation: visit.operation,
                    reach: if visit.is_called {
                        Reach::ByCall
                    } else {
                        Reach::Inside
                    },
                })?;
                Ok(())
            }
            _ => Ok(()),
        }
    }

    // Visits what an activation does from an operation on: adds what it calls, starts or continues.
    fn visit(
        &mut self,
        words: Words,
        visit: Visit,
        frontier: &mut Frontier,
        found: &mut Found,
    ) -> Result<(), AllocError> {
        let program = self.program;
        let number = self.passages.number(visit.operation)?;
        for index in 0..usize::MAX {
            let Some(place) = self.passages.act(number, index) else {
                break;
            };
            if let Some(operation) = program.operation(place) {
                self.follow(words, visit.at(place), operation, frontier, found)?;
            }
        }
        Ok(())
    }

    // What a process can still come to from these activations, by the rights that are known.
    fn walk_once(
        &mut self,
        words: Words,
        from: &[Activation],
        asks: bool,
    ) -> Result<Found, AllocError> {
        let mut frontier = Frontier {
            seen: BTreeSet::new(self.alloc),
            left: Vec::new(self.alloc),
        };
        for (index, activation) in from.iter().enumerate() {
            let is_last = index.saturating_add(1) == from.len();
            frontier.add(Visit {
                component: activation.component,
                operation: activation.operation,
                is_called: asks && is_last,
            })?;
        }
        let mut found = Found {
            continues: Vec::new(self.alloc),
            starts: Vec::new(self.alloc),
        };
        for _visit in 0..u64::MAX {
            let Some(visit) = frontier.left.pop() else {
                break;
            };
            self.visit(words, visit, &mut frontier, &mut found)?;
        }
        Ok(found)
    }

    /// What a process can still come to from these activations. If it asks for a gate, its last call
    /// is still to be made. Fails only if memory runs out.
    pub(crate) fn walk(
        &mut self,
        words: Words,
        from: &[Activation],
        asks: bool,
    ) -> Result<Found, AllocError> {
        for _pass in 0..u64::MAX {
            let known = self.rights.count();
            let found = self.walk_once(words, from, asks)?;
            if self.rights.count() == known {
                return Ok(found);
            }
        }
        Err(AllocError)
    }
}
