//! Notes on components that are never initialised, or twice.

use crate::note::NoteKind;
use crate::walk::Walk;
use cp_base_names::{Key, NameTable};
use cp_explain_meanings::meaning::Shape;
use cp_model::tree::{Fields, Identifier, InitItem, Sort};
use std::alloc::{AllocError, Global};

/// The components that a body initialises. Only the body of what declares a component does.
#[derive(Drop)]
pub struct Inits<'t> {
    // Those that each way to the current place has initialised, with the places of their names.
    done: NameTable<'t, usize>,
    // Those that some way initialises.
    named: NameTable<'t, usize>,
}

impl<'t> Inits<'t> {
    pub fn new(alloc: Global, key: Key) -> Inits<'t> {
        Inits {
            done: NameTable::new(alloc, key),
            named: NameTable::new(alloc, key),
        }
    }

    /// Begins a body.
    pub fn clear(&mut self) {
        self.done.truncate(0);
        self.named.truncate(0);
    }

    /// How many components each way to the current place has initialised.
    pub fn count(&self) -> usize {
        self.done.len()
    }

    /// Forgets all but the first `count` of them.
    pub fn forget(&mut self, count: usize) {
        self.done.truncate(count);
    }

    // Adds a component to those that were initialised. Returns whether it was one of them.
    fn add(&mut self, identifier: &'t Identifier) -> Result<bool, AllocError> {
        let name = identifier.name.as_bytes();
        if self.named.find(name).is_none() {
            self.named.add(name, identifier.at)?;
        }
        if self.done.find(name).is_some() {
            return Ok(true);
        }
        self.done.add(name, identifier.at)?;
        Ok(false)
    }
}

impl<'t> Walk<'t> {
    /// Walks over the items of an `init`.
    pub(crate) fn init_items(&mut self, items: &'t [InitItem]) -> Result<(), AllocError> {
        for item in items {
            self.init_item(item)?;
        }
        Ok(())
    }

    fn init_item(&mut self, item: &'t InitItem) -> Result<(), AllocError> {
        self.init_arguments(item)?;
        self.starts(item)?;
        let x = &item.component;
        if self.inits.add(x)? {
            self.notes
                .add_on(x.at, NoteKind::InitialisedTwice, x.name.as_bytes())?;
        }
        Ok(())
    }

    /// Walks over the end of a loop that comes round again, and before which so many components
    /// were initialised.
    pub(crate) fn comes_round(&mut self, inits: usize) -> Result<(), AllocError> {
        if self.flow.is_open() {
            for number in inits..self.inits.count() {
                if let Some((name, at)) = self.inits.done.get(number) {
                    self.notes
                        .add_on(at, NoteKind::InitialisedInEachRound, name)?;
                }
            }
            self.inits.forget(inits);
        }
        Ok(())
    }

    /// Notes the components among these variables that the body doesn't initialise.
    pub(crate) fn never_initialised(&mut self, groups: &'t [Fields]) -> Result<(), AllocError> {
        for group in groups {
            if let Some(Shape::System(sort, _)) = self.names.shape(&group.of) {
                self.never_among(sort, &group.names)?;
            }
        }
        Ok(())
    }

    fn never_among(&mut self, sort: Sort, names: &'t [Identifier]) -> Result<(), AllocError> {
        for x in names {
            let name = x.name.as_bytes();
            if self.inits.named.find(name).is_none() {
                self.notes
                    .add_on(x.at, NoteKind::NeverInitialised(sort), name)?;
            }
        }
        Ok(())
    }
}
