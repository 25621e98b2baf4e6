//! The visible names, and what they represent.
//!
//! A table finds a name by comparisons, whose number grows with the logarithm of the number of
//! names. Most names are found by a hint instead: the length and three letters of a name lead to
//! the number of a name with the same ones. If that is another name, the table is searched.

ghost use Rattle.std.specs.Prelude.{◌≡◌, ◌++◌, ◌∷◌, [], None, Some, IfOk, IfSome, OnOk, is_some, length, not, option_map, slice_get, take};
ghost use Rattle.cp_model.specs.Names.{lookup};
ghost use Rattle.cp_base_names.specs.Tables.{AreDistinct, entry_view, with_new, with_values_from};

use cp_base_names::{Key, NameTable};
use cp_model::rules::Entity;
use std::alloc::{AllocError, Global};
use std::marker::Model;

// The number of hints.
const HINT_SLOTS: usize = 512;

// This many names, the first ones, keep their hints. The standard names are among them.
const MAX_KEPT_HINTS: usize = 32;

/// The visible names and what they represent, in the order of their declarations. No name occurs
/// twice.
#[derive(Drop)]
pub struct Scope<'t> {
    table: NameTable<'t, Entity>,
    hints: Vec<usize>,
}

impl<'t> Model for Scope<'t> {
    ghost use Rattle.cp_model.specs.RulesEnvironment.{Names};

    ghost Value = { Names };

    ghost view = { λ s. s.table };
}

// The hint of a name.
fn hint_of(name: &[u8]) -> usize {
    match (name.first(), name.get(name.len() / 2), name.last()) {
        (Some(first), Some(middle), Some(last)) => {
            let letters = 7 * usize::from(*first) + 37 * usize::from(*middle) + usize::from(*last);
            (letters + 101 * (name.len() % 16)) % HINT_SLOTS
        }
        _ => 0,
    }
}

// Makes the hint of a name lead to this number, unless it leads to a name that keeps its hint.
fn set_hint(hints: &mut Vec<usize>, name: &[u8], number: usize) {
    let at = hint_of(name);
    if at < hints.len() && hints[at] >= MAX_KEPT_HINTS {
        hints[at] = number;
    }
}

impl<'t> Scope<'t> {
    /// A scope without names. Fails only if memory runs out.
    pub fn new(alloc: Global, key: Key) -> Result<Scope<'t>, AllocError>
        ensures { IfOk result (λ scope. scope ≡ []) }
    {
        let mut hints = Vec::new(alloc);
        hints.resize(HINT_SLOTS, usize::MAX)?;
        Ok(Scope {
            table: NameTable::new(alloc, key),
            hints,
        })
    }

    /// The number of names.
    pub fn len(&self) -> usize
        ensures count { result ≡ length self.now }
        ensures distinct { AreDistinct self.now }
    {
        self.table.len()
    }

    /// Makes room for `count` more names. Fails only if memory runs out.
    pub fn reserve(&mut self, count: usize) -> Result<(), AllocError>
        ensures { self.new ≡ self.old }
    {
        self.table.reserve(count)
    }

    /// The name with a number, and what it represents.
    pub fn get(&self, number: usize) -> Option<(&'t [u8], Entity)>
        ensures { option_map entry_view result ≡ slice_get self.now number }
    {
        self.table.get(number)
    }

    // What a name represents, if its hint leads to it.
    fn hinted(&self, name: &[u8]) -> Option<Entity>
        ensures { IfSome result (λ entity. lookup name.now self.now ≡ Some entity) }
    {
        let number = *self.hints.get(hint_of(name))?;
        if number >= self.table.len() {
            return None;
        }
        let (found, entity) = self.table.get(number)?;
        if found == name { Some(entity) } else { None }
    }

    /// What a name represents, if it is visible.
    pub fn find(&self, name: &[u8]) -> Option<Entity>
        ensures { result ≡ lookup name.now self.now }
    {
        match self.hinted(name) {
            Some(entity) => Some(entity),
            None => self.table.find(name),
        }
    }

    /// Adds a name, unless it is visible already, and returns whether it is new. Fails only if
    /// memory runs out.
    pub fn add_if_new(&mut self, name: &'t [u8], entity: Entity) -> Result<bool, AllocError>
        ensures new { IfOk result (λ new. new ≡ not (is_some (lookup name.now self.old))) }
        ensures added { OnOk result
            (self.new ≡ with_new name.now entity self.old (lookup name.now self.old)) }
    {
        let number = self.table.len();
        let is_new = self.table.add_if_new(name, entity)?;
        if is_new {
            set_hint(&mut self.hints, name, number);
        }
        Ok(is_new)
    }

    /// Makes the names from number `from` on represent `entity`.
    pub fn set_from(&mut self, from: usize, entity: Entity)
        ensures { self.new ≡ with_values_from from entity self.old }
    {
        self.table.set_from(from, entity);
    }

    /// Removes the names from number `len` on.
    pub fn truncate(&mut self, len: usize)
        ensures { self.new ≡ take len self.old }
    {
        self.table.truncate(len);
    }
}
