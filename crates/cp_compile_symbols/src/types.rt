//! Types by number: each has a row, which refers to the types of its parts by their numbers.

ghost use Rattle.std.specs.Prelude.{◌≡◌, [], IfOk, option_map};
ghost use Rattle.cp_compile_symbols.specs.Representing.{Adds, AddsSystem, row_at, system_at};

use cp_base_names::Key;
use cp_model::tree::System;
use std::alloc::{AllocError, Global};

/// A base type. An enumeration has a name and the number of its last value.
#[derive(Clone, Copy)]
pub enum Base<'t> {
    Integer,
    Char,
    Boolean,
    Enumeration { name: &'t [u8], last: usize },
}

/// A simple type: its base type, its bounds and its start value.
#[derive(Clone, Copy)]
pub struct Simple<'t> {
    pub base: Base<'t>,
    pub low: i32,
    pub high: i32,
    pub start: i32,
}

/// A field of a record, or a variable of a component: its name, and the number of its type.
#[derive(Clone, Copy)]
pub struct Field<'t> {
    pub name: &'t [u8],
    pub of: usize,
}

/// A type. It refers to other types and to system types by their numbers.
#[derive(Drop)]
pub enum TypeRow<'t> {
    Simple(Simple<'t>),
    Array {
        low: i32,
        high: i32,
        element: usize,
    },
    Record(Vec<Field<'t>>),
    Queue,
    /// A component type, with its own members: its parameters except the rights to components,
    /// followed by its variables.
    Component {
        system: usize,
        members: Vec<Field<'t>>,
    },
    /// No type: the row of a name that means none, and of other invalid types.
    Unknown,
}

/// Types by their numbers, and system types by theirs. System types are in text order.
#[derive(Drop)]
pub struct Types<'t> {
    pub(crate) alloc: Global,
    pub(crate) key: Key,
    pub(crate) rows: Vec<TypeRow<'t>>,
    pub(crate) systems: Vec<&'t System>,
}

impl<'t> Types<'t> {
    /// Creates empty tables of types.
    pub fn new(alloc: Global, key: Key) -> Types<'t>
        ensures rows { result.rows.items ≡ [] }
        ensures systems { result.systems.items ≡ [] }
    {
        Types {
            alloc,
            key,
            rows: Vec::new(alloc),
            systems: Vec::new(alloc),
        }
    }

    /// The row of the type with this number, if there is one.
    pub fn row(&self, number: usize) -> Option<&TypeRow<'t>>
        ensures { option_map (λ r. r.now) result ≡ row_at self.now number }
    {
        self.rows.get(number)
    }

    /// The system type with this number, if there is one.
    pub fn system(&self, number: usize) -> Option<&'t System>
        ensures { result ≡ system_at self.now number }
    {
        self.systems.get(number).copied()
    }

    /// Adds a type and returns its number.
    pub fn add(&mut self, row: TypeRow<'t>) -> Result<usize, AllocError>
        ensures { IfOk result (λ n. Adds self.old self.new row.entry n) }
    {
        let number = self.rows.len();
        self.rows.push(row)?;
        Ok(number)
    }

    /// Adds a system type and returns its number.
    pub fn add_system(&mut self, system: &'t System) -> Result<usize, AllocError>
        ensures { IfOk result (λ k. AddsSystem self.old self.new system.now k) }
    {
        let number = self.systems.len();
        self.systems.push(system)?;
        Ok(number)
    }
}
