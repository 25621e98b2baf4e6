//! The `continue` statements of each process: those that it can still come to, and those that it
//! can't any more.

use crate::activation::Activation;
use crate::targets::Walker;
use crate::walk::Come;
use crate::words::Words;
use cp_outcome_circles::site::{ContinueSite, Reach};
use cp_program::program::Program;
use std::alloc::{AllocError, Global};
use std::collections::BTreeMap;

/// Whether a process can still make a step.
#[derive(Clone, Copy)]
pub enum Stage {
    /// Not before it is started.
    Unstarted,
    /// Now or later.
    Alive,
    /// Once it gets the gate of the monitor that its last call is to enter.
    Asking,
    /// It has ended or faulted.
    Over,
}

/// A process, and what is left of it.
#[derive(Drop)]
pub struct Remainder<'r> {
    pub words: Words<'r>,
    /// The number of the unit of its body.
    pub body: u32,
    /// Where its activations continue, outermost first.
    pub activations: Vec<Activation>,
    pub stage: Stage,
}

impl Remainder<'_> {
    fn asks(&self) -> bool {
        matches!(self.stage, Stage::Asking)
    }
}

// Where a body begins.
fn start_of(program: &Program, body: u32) -> Activation {
    Activation {
        operation: match program.unit(body) {
            Some(unit) => unit.start,
            None => u32::MAX,
        },
        component: 0,
    }
}

// A `continue` of a monitor.
#[derive(Clone, Copy, PartialEq, Eq, PartialOrd, Ord)]
struct Place {
    monitor: u32,
    at: usize,
}

// The `continue` statements of a process, and how it comes to each.
#[derive(Drop)]
struct Sites {
    reaches: BTreeMap<Place, Reach>,
}

impl Sites {
    // Adds a `continue`. One that is there already has the nearer of both ways.
    fn add(&mut self, place: Place, reach: Reach) -> Result<(), AllocError> {
        let nearest = match self.reaches.get(&place) {
            Some(known) => known.nearer(reach),
            None => reach,
        };
        match self.reaches.insert(place, nearest) {
            Ok(_) => Ok(()),
            Err(_) => Err(AllocError),
        }
    }

    // Adds those that are come to. They are past if `is_past`.
    fn add_all(
        &mut self,
        program: &Program,
        all: &[Come],
        is_past: bool,
    ) -> Result<(), AllocError> {
        for come in all {
            if let Some(at) = program.origin(come.operation) {
                let place = Place {
                    monitor: come.monitor,
                    at,
                };
                self.add(place, if is_past { Reach::Past } else { come.reach })?;
            }
        }
        Ok(())
    }

    // The statements by monitors, and by their places.
    fn list(&self, alloc: Global) -> Result<Vec<ContinueSite>, AllocError> {
        let mut list = Vec::new(alloc);
        for (place, reach) in &self.reaches {
            list.push(ContinueSite {
                monitor: place.monitor,
                at: place.at,
                reach: *reach,
            })?;
        }
        Ok(list)
    }
}

// Marks the process with a number.
fn mark(marks: &mut Vec<bool>, number: u32) {
    if let Some(mark) = marks.get_mut(number as usize) {
        *mark = true;
    }
}

// Learns which rights the initial process passes. Returns, by the number of a process, from 0 on,
// whether it can still be started.
fn starts_of(
    alloc: Global,
    program: &Program,
    walker: &mut Walker,
    initial: &Remainder,
) -> Result<Vec<bool>, AllocError> {
    let count = program.processes().saturating_add(1);
    let mut marks = vec![in alloc; false; count]?;
    walker.walk(initial.words, &[start_of(program, initial.body)], false)?;
    if let Stage::Over = initial.stage {
        return Ok(marks);
    }
    let found = walker.walk(initial.words, &initial.activations, initial.asks())?;
    for number in &found.starts {
        mark(&mut marks, *number);
    }
    Ok(marks)
}

// The `continue` statements of a process.
fn sites_of(
    alloc: Global,
    program: &Program,
    walker: &mut Walker,
    process: &Remainder,
    is_startable: bool,
) -> Result<Vec<ContinueSite>, AllocError> {
    let mut sites = Sites {
        reaches: BTreeMap::new(alloc),
    };
    let has_left = match process.stage {
        Stage::Unstarted => is_startable,
        Stage::Alive | Stage::Asking => true,
        Stage::Over => false,
    };
    if has_left {
        let ahead = walker.walk(process.words, &process.activations, process.asks())?;
        sites.add_all(program, &ahead.continues, false)?;
    }
    let whole = walker.walk(process.words, &[start_of(program, process.body)], false)?;
    sites.add_all(program, &whole.continues, true)?;
    sites.list(alloc)
}

/// The `continue` statements of each process. The processes are those of a machine that runs the
/// program, by their numbers.
///
/// # Errors
///
/// `AllocError` if memory runs out.
pub fn continue_sites(
    alloc: Global,
    program: &Program,
    processes: &[Remainder],
) -> Result<Vec<Vec<ContinueSite>>, AllocError> {
    let mut all = Vec::new(alloc);
    let mut walker = Walker::of(alloc, program)?;
    let Some(initial) = processes.first() else {
        return Ok(all);
    };
    let starts = starts_of(alloc, program, &mut walker, initial)?;
    for process in processes {
        let number = process.words.process as usize;
        let is_startable = matches!(starts.get(number), Some(true));
        all.push(sites_of(alloc, program, &mut walker, process, is_startable)?)?;
    }
    Ok(all)
}
