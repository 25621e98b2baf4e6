//! A table of names.

ghost use Rattle.std.specs.Prelude.{◌≡◌, ◌<◌, ◌++◌, ◌∷◌, [], List, None, IfOk, OnOk, is_some, not, length, map, option_map, slice_get, take};
ghost use Rattle.cp_model.specs.Names.{lookup};
ghost use Rattle.cp_model.specs.RulesEnvironment.{Text};
ghost use Rattle.cp_base_names.specs.Tables.{AreDistinct, entry_view, named, with_new, with_values_from};

use crate::key::Key;
use crate::name::Name;
use indexmap::IndexMap;
use std::alloc::{AllocError, Global};
use std::marker::Model;

// With at most this many names, comparing a name with each of them is faster than hashing it.
const MAX_COMPARED_NAMES: usize = 8;

/// Names and what they represent. Contracts see the list of them, in the order in which they were
/// added. No name occurs twice.
pub struct NameTable<'t, A: Copy> {
    entries: IndexMap<Name<'t>, A, Key>,
}

// A derived `Drop` would make proofs slower (docs/CI.md).
impl<A: Copy> Drop for NameTable<'_, A> {
    fn drop(self) {
        let NameTable { entries: _ } = self;
    }
}

impl<'t, A: Copy> Model for NameTable<'t, A> {
    ghost Value = { List (Text × A) };

    ghost view = { λ t. map named t.entries.entries };
}

impl<'t, A: Copy> NameTable<'t, A> {
    /// A table without names.
    pub fn new(alloc: Global, key: Key) -> NameTable<'t, A>
        ensures { result ≡ [] }
    {
        NameTable {
            entries: IndexMap::with_hasher(alloc, key),
        }
    }

    /// The number of names.
    pub fn len(&self) -> usize
        ensures count { result ≡ length self.now }
        ensures distinct { AreDistinct self.now }
    {
        self.entries.len()
    }

    /// Makes room for `count` more names, so that the table isn't moved while they are added. Fails
    /// only if memory runs out.
    pub fn reserve(&mut self, count: usize) -> Result<(), AllocError>
        ensures { self.new ≡ self.old }
    {
        self.entries.reserve(count)
    }

    /// What a name represents, if it is in the table.
    pub fn find(&self, name: &[u8]) -> Option<A>
        ensures { result ≡ lookup name.now self.now }
    {
        if self.entries.len() <= MAX_COMPARED_NAMES {
            self.first_with(name)
        } else {
            self.entries.get(Name { letters: name }).copied()
        }
    }

    // What a name represents, by comparing it with each name from the first on.
    fn first_with(&self, name: &[u8]) -> Option<A>
        ensures { result ≡ lookup name.now self.now }
    {
        for (found, value) in self.entries.iter() {
            if name == found.letters {
                return Some(*value);
            }
        }
        None
    }

    /// The name with a number, and what it represents.
    pub fn get(&self, number: usize) -> Option<(&'t [u8], A)>
        ensures { option_map entry_view result ≡ slice_get self.now number }
    {
        let (name, value) = self.entries.get_index(number)?;
        Some((name.letters, *value))
    }

    /// Adds a name that isn't in the table. Fails only if memory runs out.
    pub fn add(&mut self, name: &'t [u8], value: A) -> Result<(), AllocError>
        requires { lookup name.now self.old ≡ None }
        ensures { OnOk result (self.new ≡ self.old ++ (name.now, value) ∷ []) }
    {
        self.add_if_new(name, value)?;
        Ok(())
    }

    /// Adds a name, unless it is in the table already, and returns whether it is new. Fails only if
    /// memory runs out.
    pub fn add_if_new(&mut self, name: &'t [u8], value: A) -> Result<bool, AllocError>
        ensures new { IfOk result (λ new. new ≡ not (is_some (lookup name.now self.old))) }
        ensures added { OnOk result
            (self.new ≡ with_new name.now value self.old (lookup name.now self.old)) }
    {
        let (number, first) = self.entries.insert_full(Name { letters: name }, value)?;
        match first {
            None => Ok(true),
            Some(first) => {
                // The name represents what it did before.
                self.entries[number] = first;
                Ok(false)
            }
        }
    }

    /// Makes the names from number `from` on represent `value`.
    pub fn set_from(&mut self, from: usize, value: A)
        ensures { self.new ≡ with_values_from from value self.old }
    {
        for number in from..self.len() {
            self.entries[number] = value;
        }
    }

    /// Makes a name represent `value`, whether or not it is in the table. Fails only if memory runs
    /// out.
    pub fn set(&mut self, name: &'t [u8], value: A) -> Result<(), AllocError>
        ensures { OnOk result
            ((x : Text) → lookup x self.new ≡ lookup x ((name.now, value) ∷ self.old)) }
    {
        self.entries.insert(Name { letters: name }, value)?;
        Ok(())
    }

    /// Removes the names from number `len` on.
    pub fn truncate(&mut self, len: usize)
        ensures { self.new ≡ take len self.old }
    {
        self.entries.truncate(len);
    }
}
