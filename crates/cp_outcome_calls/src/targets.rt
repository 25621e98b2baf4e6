//! The components that calls and rights refer to, as far as they are known.

use crate::passages::Passages;
use crate::rights::Rights;
use crate::words::{Address, Words};
use cp_program::operation::{Argument, Call, Target};
use cp_program::program::Program;
use std::alloc::{AllocError, Global};
use std::collections::BTreeMap;

/// Walks over a program.
#[derive(Drop)]
pub(crate) struct Walker<'r> {
    pub(crate) alloc: Global,
    pub(crate) program: &'r Program,
    /// The monitors by their first shared word.
    monitors: BTreeMap<usize, u32>,
    pub(crate) rights: Rights,
    pub(crate) passages: Passages<'r>,
}

// The address at a distance from another one.
fn displaced(from: usize, distance: i32) -> usize {
    let far = distance.unsigned_abs() as usize;
    if distance < 0 {
        from.saturating_sub(far)
    } else {
        from.saturating_add(far)
    }
}

// The distance from one address to another, or 0 if it doesn't fit in a word.
fn distance(from: usize, to: usize) -> i32 {
    let (Ok(from), Ok(to)) = (i32::try_from(from), i32::try_from(to)) else {
        return 0;
    };
    to.saturating_sub(from)
}

// The monitors of a program by their first shared word.
fn monitors_of(alloc: Global, program: &Program) -> Result<BTreeMap<usize, u32>, AllocError> {
    let mut monitors = BTreeMap::new(alloc);
    for index in 0..program.monitors() {
        let number = index.saturating_add(1);
        let start = program.monitor_start(number);
        let short = u32::try_from(number).unwrap_or(0);
        if monitors.insert(start, short).is_err() {
            return Err(AllocError);
        }
    }
    Ok(monitors)
}

impl<'r> Walker<'r> {
    /// A walker that knows of no `init`. Fails only if memory runs out.
    pub(crate) fn of(alloc: Global, program: &'r Program) -> Result<Walker<'r>, AllocError> {
        Ok(Walker {
            alloc,
            program,
            monitors: monitors_of(alloc, program)?,
            rights: Rights::new(alloc),
            passages: Passages::new(alloc, program),
        })
    }

    // The values that a word has or may get.
    fn values(&self, words: Words, at: usize) -> Result<Vec<i32>, AllocError> {
        let mut values = Vec::new(self.alloc);
        let word = words.word(at);
        if word != 0 {
            values.push(word)?;
            return Ok(values);
        }
        let address = words.address(at);
        for index in 0..usize::MAX {
            match self.rights.value(address, index) {
                Some(value) => values.push(value)?,
                None => break,
            }
        }
        Ok(values)
    }

    // The address of a monitor, as a process names it.
    fn monitor_address(&self, words: Words, number: usize) -> usize {
        words
            .own
            .len()
            .saturating_add(self.program.monitor_start(number))
    }

    // The addresses of the classes to which a word may hold a right.
    fn classes(&self, words: Words, at: usize) -> Result<Vec<usize>, AllocError> {
        let mut classes = Vec::new(self.alloc);
        for value in &self.values(words, at)? {
            classes.push(displaced(at, *value))?;
        }
        Ok(classes)
    }

    // The addresses of the monitors to which a word may hold a right.
    fn monitors(&self, words: Words, at: usize) -> Result<Vec<usize>, AllocError> {
        let mut monitors = Vec::new(self.alloc);
        for value in &self.values(words, at)? {
            let number = usize::try_from(*value).unwrap_or(0);
            if 0 < number {
                monitors.push(self.monitor_address(words, number))?;
            }
        }
        Ok(monitors)
    }

    // The components that a target may be, seen from a component.
    fn components(
        &self,
        words: Words,
        component: usize,
        target: Target,
    ) -> Result<Vec<usize>, AllocError> {
        let mut components = Vec::new(self.alloc);
        match target {
            Target::Own => components.push(component)?,
            Target::Class(at) => components.push(component.saturating_add(at as usize))?,
            Target::Monitor(number) => {
                components.push(self.monitor_address(words, number as usize))?
            }
            Target::ClassRight(at) => {
                return self.classes(words, component.saturating_add(at as usize));
            }
            Target::MonitorRight(at) => {
                return self.monitors(words, component.saturating_add(at as usize));
            }
        }
        Ok(components)
    }

    /// The components that the target of a call may be, seen from a component.
    pub(crate) fn targets(
        &self,
        words: Words,
        component: usize,
        call: &Call,
    ) -> Result<Vec<usize>, AllocError> {
        self.components(words, component, call.target)
    }

    // Notes that a word at an address of the process may get a right to a class.
    fn note_classes(
        &mut self,
        words: Words,
        to: usize,
        classes: &[usize],
    ) -> Result<(), AllocError> {
        for class in classes {
            self.rights.add(words.address(to), distance(to, *class))?;
        }
        Ok(())
    }

    // Notes that a word may get a right to a monitor.
    fn note_monitors(&mut self, to: Address, monitors: &[i32]) -> Result<(), AllocError> {
        for monitor in monitors {
            self.rights.add(to, *monitor)?;
        }
        Ok(())
    }

    // Notes the right that an argument passes to a component at an address of the process.
    fn note_right(
        &mut self,
        words: Words,
        component: usize,
        to: usize,
        of: Target,
    ) -> Result<(), AllocError> {
        match of {
            Target::Own => Ok(()),
            Target::Class(_) | Target::ClassRight(_) => {
                let classes = self.components(words, component, of)?;
                self.note_classes(words, to, &classes)
            }
            Target::Monitor(number) => {
                let number = i32::try_from(number).unwrap_or(0);
                self.note_monitors(words.address(to), &[number])
            }
            Target::MonitorRight(at) => {
                let values = self.values(words, component.saturating_add(at as usize))?;
                self.note_monitors(words.address(to), &values)
            }
        }
    }

    /// Notes the rights that an `init` of a class or a monitor passes.
    pub(crate) fn note_rights(
        &mut self,
        words: Words,
        component: usize,
        home: usize,
        arguments: &[Argument],
    ) -> Result<(), AllocError> {
        for argument in arguments {
            if let Argument::Right { at, of } = argument {
                let to = home.saturating_add(*at as usize);
                self.note_right(words, component, to, *of)?;
            }
        }
        Ok(())
    }

    /// Notes the rights to monitors that an `init` of a process passes.
    pub(crate) fn note_parameters(
        &mut self,
        words: Words,
        component: usize,
        process: u32,
        arguments: &[Argument],
    ) -> Result<(), AllocError> {
        for argument in arguments {
            let Argument::Right { at, of } = argument else {
                continue;
            };
            let to = Address {
                owner: process,
                at: *at as usize,
            };
            match *of {
                Target::Monitor(number) => {
                    self.rights.add(to, i32::try_from(number).unwrap_or(0))?;
                }
                Target::MonitorRight(from) => {
                    let from = component.saturating_add(from as usize);
                    let values = self.values(words, from)?;
                    self.note_monitors(to, &values)?;
                }
                Target::Own | Target::Class(_) | Target::ClassRight(_) => {}
            }
        }
        Ok(())
    }

    /// The monitor at an address of the process, or 0 if it is another component.
    pub(crate) fn monitor_at(&self, words: Words, component: usize) -> u32 {
        let address = words.address(component);
        if address.owner != 0 {
            return 0;
        }
        match self.monitors.get(&address.at) {
            Some(number) => *number,
            None => 0,
        }
    }
}
