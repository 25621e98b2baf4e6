//! The processes that are delayed, and who could continue them.

use crate::snapshot::{ProcessSnapshot, StatusSnapshot};
use cp_inspect::state::ProcState;
use cp_model::tree::{Identifier, System, Tree};
use cp_outcome_circles::circle::Wait;
use cp_outcome_circles::site::{ContinueSite, Reach};
use cp_outcome_text::indices::push_path;
use cp_outcome_text::queues::continuers_of;
use cp_private::kernel_view::Holder;
use std::alloc::{AllocError, Global};

/// A process that is delayed.
#[derive(Drop)]
pub(crate) struct Delay<'t> {
    /// The number of the monitor.
    pub(crate) monitor: u32,
    /// The path of the queue, with the names of indices.
    pub(crate) queue: Vec<u8>,
    /// The entries that continue the queue.
    pub(crate) entries: Vec<&'t Identifier>,
    /// The other processes that can call such an entry.
    pub(crate) callers: Vec<u32>,
    /// The other processes that are inside of one, and can't call one again.
    pub(crate) insiders: Vec<u32>,
    /// The other processes that call one in their program, but can't any more.
    pub(crate) past: Vec<u32>,
}

// A `continue` of a process.
#[derive(Clone, Copy)]
struct Helper {
    process: u32,
    site: ContinueSite,
}

/// The `continue` statements of all processes, for each monitor by number.
#[derive(Drop)]
pub(crate) struct Helpers {
    all: Vec<Vec<Helper>>,
}

impl Helpers {
    /// The `continue` statements in a snapshot. Fails only if memory runs out.
    pub(crate) fn of(alloc: Global, snapshot: &StatusSnapshot) -> Result<Helpers, AllocError> {
        let mut all = Vec::new(alloc);
        for _monitor in &snapshot.monitors {
            all.push(Vec::new(alloc))?;
        }
        let mut helpers = Helpers { all };
        for process in &snapshot.processes {
            helpers.add(process)?;
        }
        Ok(helpers)
    }

    fn add(&mut self, process: &ProcessSnapshot) -> Result<(), AllocError> {
        for site in &process.continues {
            let index = (site.monitor as usize).wrapping_sub(1);
            if let Some(list) = self.all.get_mut(index) {
                list.push(Helper {
                    process: process.number,
                    site: *site,
                })?;
            }
        }
        Ok(())
    }

    // The `continue` statements in a monitor, by processes.
    fn inside(&self, monitor: u32) -> &[Helper] {
        match self.all.get((monitor as usize).wrapping_sub(1)) {
            Some(list) => list,
            None => &[],
        }
    }
}

// The name of a variable, without the indices after it.
fn without_indices(name: &[u8]) -> &[u8] {
    for i in 0..name.len() {
        if name[i] == b'[' {
            return &name[..i];
        }
    }
    name
}

impl<'t> Delay<'t> {
    fn add(&mut self, process: u32, reach: Reach) -> Result<(), AllocError> {
        match reach {
            Reach::ByCall => self.callers.push(process)?,
            Reach::Inside => self.insiders.push(process)?,
            Reach::Past => self.past.push(process)?,
        }
        Ok(())
    }

    // Adds the processes that have one of the `continue` statements at these places, which are in the
    // order of the text, but for the delayed one. The statements are ordered by processes.
    fn add_helpers(
        &mut self,
        helpers: &[Helper],
        places: &[usize],
        delayed: u32,
    ) -> Result<(), AllocError> {
        let mut last: Option<(u32, Reach)> = None;
        for helper in helpers {
            let Helper { process, site } = *helper;
            if process == delayed || places.binary_search(&site.at).is_err() {
                continue;
            }
            let mut reach = site.reach;
            if let Some((number, known)) = last {
                if number == process {
                    reach = reach.nearer(known);
                } else {
                    self.add(number, known)?;
                }
            }
            last = Some((process, reach));
        }
        match last {
            Some((number, known)) => self.add(number, known),
            None => Ok(()),
        }
    }

    /// A process that is delayed in a queue of a monitor, which has this type. Fails only if memory
    /// runs out.
    pub(crate) fn of(
        alloc: Global,
        tree: &'t Tree,
        of: &'t System,
        monitor: u32,
        process: &ProcessSnapshot,
        helpers: &Helpers,
    ) -> Result<Delay<'t>, AllocError> {
        let name = without_indices(&process.queue);
        let found = continuers_of(alloc, of, name)?;
        let mut delay = Delay {
            monitor,
            queue: push_path(alloc, tree, of, name, &process.queue)?,
            entries: found.entries,
            callers: Vec::new(alloc),
            insiders: Vec::new(alloc),
            past: Vec::new(alloc),
        };
        delay.add_helpers(helpers.inside(monitor), &found.places, process.number)?;
        Ok(delay)
    }

    /// The processes that could continue this one. Fails only if memory runs out.
    pub(crate) fn helpers(&self, alloc: Global) -> Result<Vec<u32>, AllocError> {
        let mut helpers = Vec::new(alloc);
        helpers.extend_from_slice(&self.callers)?;
        helpers.extend_from_slice(&self.insiders)?;
        Ok(helpers)
    }
}

// The process that waits for one other process in a monitor, or for the initial process to start
// it, which is in no monitor.
fn waits_for(alloc: Global, monitor: u32, other: u32) -> Result<Wait, AllocError> {
    Ok(Wait::For {
        monitor,
        others: vec![in alloc; other]?,
    })
}

/// Whether a process waits, and for whom. Fails only if memory runs out.
pub(crate) fn wait_of(
    alloc: Global,
    snapshot: &StatusSnapshot,
    process: &ProcessSnapshot,
    delay: Option<&Delay>,
) -> Result<Wait, AllocError> {
    match (process.state, delay) {
        (ProcState::Ended | ProcState::Faulted(_), _) => Ok(Wait::Over),
        (ProcState::Unstarted, _) => waits_for(alloc, 0, 1),
        (ProcState::Asking(monitor), _) => match snapshot.holder_of(monitor) {
            Holder::Process(holder) => waits_for(alloc, monitor, holder),
            Holder::Unset | Holder::Free => Ok(Wait::Moves),
        },
        (ProcState::Delayed { monitor, .. }, Some(delay)) => Ok(Wait::For {
            monitor,
            others: delay.helpers(alloc)?,
        }),
        _ => Ok(Wait::Moves),
    }
}
