//! Where the activations of a process have been called.

use crate::activation::Activation;
use crate::continuing::Remainder;
use crate::successors::{ends_unit, first_of_unit};
use crate::targets::Walker;
use crate::words::Words;
use cp_program::operation::{Call, Operation};
use cp_program::program::Program;
use std::alloc::{AllocError, Global};

// The call that an operation makes, and the operation after it.
fn call_of(operation: &Operation) -> Option<(&Call, u32)> {
    match operation {
        Operation::Procedure { call, next }
        | Operation::Function { call, next, .. }
        | Operation::InitClass { call, next }
        | Operation::InitMonitor { call, next } => Some((call, *next)),
        _ => None,
    }
}

// Finds the calls of processes.
#[derive(Drop)]
struct Finder<'a> {
    alloc: Global,
    program: &'a Program,
    walker: Walker<'a>,
}

impl Finder<'_> {
    // Whether a call by which an activation continues has led to another one.
    fn leads(
        &self,
        words: Words,
        call: &Call,
        caller: Activation,
        callee: Activation,
    ) -> Result<bool, AllocError> {
        let start = match self.program.unit(call.routine) {
            Some(unit) => unit.start,
            None => return Ok(false),
        };
        let first = first_of_unit(self.program, callee.operation);
        if first != first_of_unit(self.program, start) {
            return Ok(false);
        }
        let targets = self.walker.targets(words, caller.component, call)?;
        Ok(targets.contains(&callee.component))
    }

    // Adds the place of an operation, if it is a call after which one activation continues and that
    // has led to another one.
    fn add_place(
        &self,
        words: Words,
        place: u32,
        caller: Activation,
        callee: Activation,
        places: &mut Vec<usize>,
    ) -> Result<(), AllocError> {
        let Some(operation) = self.program.operation(place) else {
            return Ok(());
        };
        let leads = match call_of(operation) {
            Some((call, next)) => {
                next == caller.operation && self.leads(words, call, caller, callee)?
            }
            None => false,
        };
        if let (true, Some(at)) = (leads, self.program.origin(place)) {
            places.push(at)?;
        }
        Ok(())
    }

    // The places of the calls after which one activation continues and which have led to another one.
    // There is more than one if two branches end with the same call.
    fn places(
        &self,
        words: Words,
        caller: Activation,
        callee: Activation,
    ) -> Result<Vec<usize>, AllocError> {
        let mut places = Vec::new(self.alloc);
        let first = first_of_unit(self.program, caller.operation);
        for place in first.saturating_add(1)..u32::MAX {
            match self.program.operation(place) {
                Some(operation) if !ends_unit(operation) => {
                    self.add_place(words, place, caller, callee, &mut places)?;
                }
                _ => break,
            }
        }
        places.sort()?;
        Ok(places)
    }

    // The places of the calls of a process.
    fn calls(&self, process: &Remainder) -> Result<Vec<Vec<usize>>, AllocError> {
        let mut calls = Vec::new(self.alloc);
        let mut caller = None;
        for activation in &process.activations {
            if let Some(caller) = caller {
                calls.push(self.places(process.words, caller, *activation)?)?;
            }
            caller = Some(*activation);
        }
        Ok(calls)
    }
}

/// For each process, and for each of its activations but the first, outermost first, the places in
/// the text of the call that made it. It has more than one place only if two branches end with the
/// same call.
///
/// # Errors
///
/// `AllocError` if memory runs out.
pub fn call_places(
    alloc: Global,
    program: &Program,
    processes: &[Remainder],
) -> Result<Vec<Vec<Vec<usize>>>, AllocError> {
    let finder = Finder {
        alloc,
        program,
        walker: Walker::of(alloc, program)?,
    };
    let mut all = Vec::new(alloc);
    for process in processes {
        all.push(finder.calls(process)?)?;
    }
    Ok(all)
}
