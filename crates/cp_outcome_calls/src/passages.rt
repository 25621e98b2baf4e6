//! What activations do from one of their operations on: the operations that they come to and that
//! call, start or continue others. These are the same in all components and processes, so they are
//! found once.

use crate::successors::{ends_unit, first_of_unit, leads_to_all_before, push_successors};
use cp_program::operation::{Call, Operation, Target};
use cp_program::program::Program;
use std::alloc::{AllocError, Global};
use std::collections::{BTreeMap, BTreeSet};

// Which component a call is to, by its variant and its number.
fn target_key(target: Target) -> (u32, u32) {
    match target {
        Target::Own => (0, 0),
        Target::Class(at) => (1, at),
        Target::ClassRight(at) => (2, at),
        Target::Monitor(number) => (3, number),
        Target::MonitorRight(at) => (4, at),
    }
}

// A routine of a component. Two calls of it lead to the same.
#[derive(Clone, Copy, PartialEq, Eq, PartialOrd, Ord)]
struct Callee {
    routine: u32,
    variant: u32,
    number: u32,
}

impl Callee {
    fn of(call: &Call) -> Callee {
        let (variant, number) = target_key(call.target);
        Callee {
            routine: call.routine,
            variant,
            number,
        }
    }
}

// The operations of a unit that have been come to.
#[derive(Drop)]
struct Marks {
    first: u32,
    marks: Vec<bool>,
    /// All before this one have been come to.
    below: u32,
    /// Those that are left to visit.
    left: Vec<u32>,
}

impl Marks {
    // Comes to an operation, unless it was come to before.
    fn come(&mut self, operation: u32) -> Result<(), AllocError> {
        let index = operation.saturating_sub(self.first) as usize;
        if let Some(mark) = self.marks.get_mut(index) {
            if !*mark {
                *mark = true;
                self.left.push(operation)?;
            }
        }
        Ok(())
    }

    // Comes to all operations before one.
    fn come_before(&mut self, operation: u32) -> Result<(), AllocError> {
        for place in self.below..operation {
            self.come(place)?;
        }
        self.below = self.below.max(operation);
        Ok(())
    }
}

// The number of operations of the unit that begins, by number, with this one.
fn unit_length(program: &Program, first: u32) -> usize {
    let mut length: usize = 1;
    for place in first.saturating_add(1)..u32::MAX {
        match program.operation(place) {
            Some(operation) if !ends_unit(operation) => length = length.saturating_add(1),
            _ => break,
        }
    }
    length
}

// The operations that act, without calls of what is called already.
#[derive(Drop)]
struct Acts {
    all: Vec<u32>,
    callees: BTreeSet<Callee>,
}

impl Acts {
    fn add(&mut self, place: u32, operation: &Operation) -> Result<(), AllocError> {
        let acts = match operation {
            Operation::Procedure { call, .. } | Operation::Function { call, .. } => {
                match self.callees.insert(Callee::of(call)) {
                    Ok(is_new) => is_new,
                    Err(_) => return Err(AllocError),
                }
            }
            Operation::InitClass { .. }
            | Operation::InitMonitor { .. }
            | Operation::InitProcess { .. }
            | Operation::Continue { .. } => true,
            _ => false,
        };
        if acts {
            self.all.push(place)?;
        }
        Ok(())
    }
}

/// What activations do, by the operation from which they continue, as far as it has been asked for.
#[derive(Drop)]
pub(crate) struct Passages<'r> {
    alloc: Global,
    program: &'r Program,
    numbers: BTreeMap<u32, usize>,
    all: Vec<Vec<u32>>,
}

impl<'r> Passages<'r> {
    /// Nothing has been asked for.
    pub(crate) fn new(alloc: Global, program: &'r Program) -> Passages<'r> {
        Passages {
            alloc,
            program,
            numbers: BTreeMap::new(alloc),
            all: Vec::new(alloc),
        }
    }

    // The operations that act among all that an activation comes to from one on.
    fn find(&self, from: u32) -> Result<Vec<u32>, AllocError> {
        let first = first_of_unit(self.program, from);
        let mut marks = Marks {
            first,
            marks: vec![in self.alloc; false; unit_length(self.program, first)]?,
            below: first,
            left: Vec::new(self.alloc),
        };
        let mut acts = Acts {
            all: Vec::new(self.alloc),
            callees: BTreeSet::new(self.alloc),
        };
        marks.come(from)?;
        for _operation in 0..u64::MAX {
            let Some(place) = marks.left.pop() else {
                break;
            };
            self.pass(place, &mut marks, &mut acts)?;
        }
        Ok(acts.all)
    }

    // Continues from an operation.
    fn pass(&self, place: u32, marks: &mut Marks, acts: &mut Acts) -> Result<(), AllocError> {
        let Some(operation) = self.program.operation(place) else {
            return Ok(());
        };
        if leads_to_all_before(operation) {
            marks.come_before(place)?;
        }
        let mut places = Vec::new(self.alloc);
        push_successors(operation, &mut places)?;
        for next in &places {
            marks.come(*next)?;
        }
        acts.add(place, operation)
    }

    /// The number of what activations do from an operation on. Fails only if memory runs out.
    pub(crate) fn number(&mut self, from: u32) -> Result<usize, AllocError> {
        if let Some(number) = self.numbers.get(&from) {
            return Ok(*number);
        }
        let number = self.all.len();
        let found = self.find(from)?;
        self.all.push(found)?;
        match self.numbers.insert(from, number) {
            Ok(_) => Ok(number),
            Err(_) => Err(AllocError),
        }
    }

    /// An operation that acts, by the number of what it belongs to and its index there.
    pub(crate) fn act(&self, number: usize, index: usize) -> Option<u32> {
        self.all.get(number)?.get(index).copied()
    }
}
