//! Notes on queues in which processes are delayed and from which nothing continues them.

use crate::flow::Flow;
use crate::note::NoteKind;
use crate::walk::Walk;
use cp_base_names::{Key, NameTable};
use cp_model::tree::{Designator, Expression, Identifier};
use std::alloc::{AllocError, Global};

/// A queue of a monitor, or an array of queues.
#[derive(Clone, Copy)]
pub struct Queue<'t> {
    name: &'t [u8],
    // The first `delay` in it.
    delayed: Option<usize>,
    is_continued: bool,
    /// The first `delay` in it that an entry routine surely comes to.
    pub(crate) sure: Option<usize>,
}

/// The queues of the text so far, and those of the current monitor by their names.
#[derive(Drop)]
pub struct Queues<'t> {
    all: Vec<Queue<'t>>,
    here: NameTable<'t, usize>,
}

impl<'t> Queues<'t> {
    pub fn new(alloc: Global, key: Key) -> Queues<'t> {
        Queues {
            all: Vec::new(alloc),
            here: NameTable::new(alloc, key),
        }
    }

    /// Forgets the names of the queues of the last monitor.
    pub fn leave_monitor(&mut self) {
        self.here.truncate(0);
    }

    /// The queue with a number.
    pub fn get(&self, number: usize) -> Option<Queue<'t>> {
        self.all.get(number).copied()
    }

    // The number of the queue with this name.
    fn number(&mut self, identifier: &'t Identifier) -> Result<usize, AllocError> {
        let name = identifier.name.as_bytes();
        if let Some(number) = self.here.find(name) {
            return Ok(number);
        }
        let number = self.all.len();
        self.all.push(Queue {
            name,
            delayed: None,
            is_continued: false,
            sure: None,
        })?;
        self.here.add(name, number)?;
        Ok(number)
    }

    fn set_delayed(&mut self, number: usize, at: usize) {
        if let Some(queue) = self.all.get_mut(number) {
            if queue.delayed.is_none() {
                queue.delayed = Some(at);
            }
        }
    }

    fn set_sure(&mut self, number: usize, at: usize) {
        if let Some(queue) = self.all.get_mut(number) {
            if queue.sure.is_none() {
                queue.sure = Some(at);
            }
        }
    }

    fn set_continued(&mut self, number: usize) {
        if let Some(queue) = self.all.get_mut(number) {
            queue.is_continued = true;
        }
    }
}

// The designator that is the argument of `delay` or `continue`.
fn queue_of(list: &[Expression]) -> Option<&Designator> {
    match list.first()? {
        Expression::Designated(d) => Some(d),
        _ => None,
    }
}

impl<'t> Walk<'t> {
    /// Walks over a `delay`.
    pub(crate) fn delays(&mut self, at: usize, list: &'t [Expression]) -> Result<(), AllocError> {
        self.inside.delays = true;
        let Some(d) = queue_of(list) else {
            return Ok(());
        };
        let number = self.queues.number(&d.root)?;
        self.queues.set_delayed(number, at);
        if d.selectors.is_empty() && self.is_sure() {
            self.queues.set_sure(number, at);
            if self.inside.queue.is_none() {
                self.inside.queue = Some(number);
            }
        }
        Ok(())
    }

    // Whether each call of an entry routine comes to the current place, unless something before
    // stops its process.
    fn is_sure(&self) -> bool {
        self.inside.is_entry() && self.inside.conditions == 0 && !self.inside.minds_queues
    }

    /// Walks over a `continue`.
    pub(crate) fn continues(
        &mut self,
        at: usize,
        list: &'t [Expression],
    ) -> Result<(), AllocError> {
        if let Some(d) = queue_of(list) {
            let number = self.queues.number(&d.root)?;
            self.queues.set_continued(number);
        }
        self.returns_early(at)?;
        self.inside.minds_queues = true;
        self.flow = Flow::NOWHERE;
        Ok(())
    }

    /// Notes the queues of a monitor that are never continued.
    pub(crate) fn never_continued(&mut self) -> Result<(), AllocError> {
        for index in 0..self.queues.here.len() {
            if let Some((_, number)) = self.queues.here.get(index) {
                self.unless_continued(number)?;
            }
        }
        Ok(())
    }

    fn unless_continued(&mut self, number: usize) -> Result<(), AllocError> {
        match self.queues.get(number) {
            Some(
                Queue {
                    name,
                    delayed: Some(at),
                    is_continued: false,
                    ..
                },
            ) => self.notes.add_on(at, NoteKind::NeverContinued, name),
            _ => Ok(()),
        }
    }
}
