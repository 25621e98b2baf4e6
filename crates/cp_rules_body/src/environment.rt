//! The environment in which a part of a text is judged: its names, and its types and routines.

ghost use Rattle.std.specs.Prelude.{◌≡◌, [], ℕ, IfOk, OnOk, Option, None, Some, List, drop, get_or, is_some, length, not, option_map, slice_get, take};
ghost use Rattle.cp_model.specs.Names.{lookup};
ghost use Rattle.cp_model.specs.RulesEnvironment as r;
ghost use Rattle.cp_model.specs.RulesTypes as types;
ghost use Rattle.cp_rules_body.specs.Environments.{with_members, with_parameters, with_routine, with_system};
ghost use Rattle.cp_base_names.specs.Tables.{AreDistinct, entry_view, with_values_from};

mod counts;

use crate::scope::Scope;
use cp_base_names::NameTable;
use cp_model::rules::{
    Entity, Member, ParameterRow, Part, Region, Returns, RoutineRow, Structure, SystemRow, TypeRow,
};
use cp_model::tree::{Identifier, Sort};
use std::alloc::{AllocError, Global};
use std::marker::Model;

/// The fields of a record type, or the routines of a system type, by their names.
pub type Members<'t> = NameTable<'t, Member>;

/// What is known where a part of a text is judged. Contracts see the environment of the
/// definitions.
pub struct Environment<'t> {
    names: Scope<'t>,
    types: Vec<TypeRow>,
    members: Vec<Members<'t>>,
    routines: Vec<RoutineRow>,
    parameters: Vec<ParameterRow>,
    systems: Vec<SystemRow>,
    processes: usize,
    monitors: usize,
    region: Region,
}

// A derived `Drop` would make proofs slower (docs/CI.md).
impl Drop for Environment<'_> {
    fn drop(self) {
        let Environment {
            names: _,
            types: _,
            members: _,
            routines: _,
            parameters: _,
            systems: _,
            processes: _,
            monitors: _,
            region: _,
        } = self;
    }
}

impl<'t> Model for Environment<'t> {
    ghost Value = { r.Environment };

    ghost view = { λ e. record {
      names = e.names;
      types = e.types.items;
      members = e.members.items;
      routines = e.routines.items;
      parameters = e.parameters.items;
      systems = e.systems.items;
      processes = e.processes;
      monitors = e.monitors;
      region = e.region;
    } };
}

fn is_structured(structure: Structure) -> bool
    ensures { result ≡ r.is_structured structure }
{
    matches!(structure, Structure::Array(_, _) | Structure::Record(_))
}

// What is known about names.
impl<'t> Environment<'t> {
    /// What a name represents, if it is visible.
    pub fn find(&self, name: &[u8]) -> Option<Entity>
        ensures { result ≡ lookup name.now self.now.names }
    {
        self.names.find(name)
    }

    /// The number of visible names. No two of them are the same.
    pub fn name_count(&self) -> usize
        ensures count { result ≡ length self.now.names }
        ensures distinct { AreDistinct self.now.names }
    {
        self.names.len()
    }

    /// The visible name with this number, and what it represents.
    pub fn name(&self, number: usize) -> Option<(&'t [u8], Entity)>
        ensures { option_map entry_view result ≡ slice_get self.now.names number }
    {
        self.names.get(number)
    }

    /// The member with this name in a table of members.
    pub fn member(&self, table: usize, name: &Identifier) -> Option<Member>
        ensures { result ≡ lookup name.now.name (get_or self.now.members table []) }
    {
        self.members.get(table)?.find(name.name.as_bytes())
    }
}

// What is known about types.
impl<'t> Environment<'t> {
    /// The structure of a type.
    pub fn structure(&self, t: usize) -> Structure
        ensures { result ≡ (r.row_of self.now t).structure }
    {
        match self.types.get(t) {
            Some(row) => row.structure,
            None => Structure::Queue,
        }
    }

    /// The number of words of a variable of the type.
    pub fn words(&self, t: usize) -> usize
        ensures { result ≡ (r.row_of self.now t).words }
    {
        match self.types.get(t) {
            Some(row) => row.words,
            None => 1,
        }
    }

    /// Whether a variable of the type contains queues.
    pub fn has_queues(&self, t: usize) -> bool
        ensures { result ≡ (r.row_of self.now t).has_queues }
    {
        match self.types.get(t) {
            Some(row) => row.has_queues,
            None => true,
        }
    }

    /// The base type of a simple type.
    pub fn base(&self, t: usize) -> Option<usize>
        ensures { result ≡ r.base_of self.now t }
    {
        match self.structure(t) {
            Structure::Simple(base, _, _) => Some(base),
            _ => None,
        }
    }

    /// Whether a type is simple.
    pub fn is_simple(&self, t: usize) -> bool
        ensures { result ≡ r.is_simple self.now t }
    {
        self.base(t).is_some()
    }

    /// The number of the system type that a type is, if it is one.
    pub fn system(&self, t: usize) -> Option<usize>
        ensures { result ≡ r.system_of self.now t }
    {
        match self.structure(t) {
            Structure::System(y) => Some(y),
            _ => None,
        }
    }

    /// Whether variables of a type are components.
    pub fn is_component(&self, t: usize) -> bool
        ensures { result ≡ r.is_component self.now t }
    {
        self.system(t).is_some()
    }

    /// Whether values of two types agree: both types are simple with the same base type, or they
    /// are the very same array or record type.
    pub fn agree(&self, a: usize, b: usize) -> bool
        ensures { result ≡ r.agree self.now a b }
    {
        match (self.base(a), self.base(b)) {
            (Some(a), Some(b)) => a == b,
            _ => a == b && is_structured(self.structure(a)),
        }
    }

    /// The system type with this number.
    pub fn system_row(&self, number: usize) -> SystemRow
        ensures { result ≡ r.system_row self.now number }
    {
        match self.systems.get(number) {
            Some(row) => *row,
            None => SystemRow {
                sort: Sort::Process,
                first: 0,
                count: 0,
                words: 0,
                body_need: 0,
                members: 0,
            },
        }
    }
}

// What is known about routines, and about the region of the statements.
impl<'t> Environment<'t> {
    /// The routine with this number.
    pub fn routine(&self, number: usize) -> RoutineRow
        ensures { result ≡ r.routine_of self.now number }
    {
        match self.routines.get(number) {
            Some(row) => *row,
            None => RoutineRow {
                entry: false,
                first: 0,
                count: 0,
                returns: Returns::Nothing,
                need: 0,
            },
        }
    }

    /// The parameter with this number among those from `first` on.
    pub fn parameter(&self, first: usize, number: usize) -> Option<ParameterRow>
        ensures { result ≡ slice_get (drop first self.now.parameters) number }
    {
        let parameters = self.parameters.as_slice();
        let at = first.checked_add(number)?;
        parameters.get(at).copied()
    }

    /// The region that the statements are in.
    pub fn region(&self) -> Region
        ensures { result ≡ self.now.region }
    {
        self.region
    }
}

// What declarations add. Each function fails only if memory runs out.
impl<'t> Environment<'t> {
    /// The environment of the initial process, with these names and types.
    pub fn new(alloc: Global, names: Scope<'t>, types: Vec<TypeRow>) -> Environment<'t>
        ensures { result ≡ record
            r.standard_environment { names = names.entry; types = types.items } }
    {
        Environment {
            names,
            types,
            members: Vec::new(alloc),
            routines: Vec::new(alloc),
            parameters: Vec::new(alloc),
            systems: Vec::new(alloc),
            processes: 1,
            monitors: 0,
            region: Region {
                sort: Sort::Process,
                part: Part::Body,
            },
        }
    }

    /// Makes room for `count` more names.
    pub fn reserve_names(&mut self, count: usize) -> Result<(), AllocError>
        ensures { self.new ≡ self.old }
    {
        self.names.reserve(count)
    }

    /// Makes room for `count` more types, tables of members and system types.
    pub fn reserve_types(&mut self, count: usize) -> Result<(), AllocError>
        ensures { self.new ≡ self.old }
    {
        self.types.reserve(count)?;
        self.members.reserve(count)?;
        self.systems.reserve(count)
    }

    /// Makes room for `count` more routines.
    pub fn reserve_routines(&mut self, count: usize) -> Result<(), AllocError>
        ensures { self.new ≡ self.old }
    {
        self.routines.reserve(count)
    }

    /// Declares a name, unless it is visible already, and returns whether it wasn't.
    pub fn declare(&mut self, name: &'t Identifier, entity: Entity) -> Result<bool, AllocError>
        ensures new { IfOk result
            (λ new. new ≡ not (is_some (lookup name.now.name self.old.names))) }
        ensures declared { OnOk result (self.new ≡ r.declare name.now entity self.old) }
    {
        self.names.add_if_new(name.name.as_bytes(), entity)
    }

    /// Makes the names that were declared after the first `mark` ones represent `entity`.
    pub fn set_from(&mut self, mark: usize, entity: Entity)
        ensures { self.new ≡ r.with_names (with_values_from mark entity self.old.names) self.old }
    {
        self.names.set_from(mark, entity);
    }

    /// Removes the names that were declared after the first `mark` ones.
    pub fn leave(&mut self, mark: usize)
        ensures { self.new ≡ r.with_names (take mark self.old.names) self.old }
    {
        self.names.truncate(mark);
    }

    /// Adds a type.
    pub fn add_type(&mut self, row: TypeRow) -> Result<(), AllocError>
        ensures { OnOk result (self.new ≡ types.add_type self.old row) }
    {
        self.types.push(row)?;
        Ok(())
    }

    /// Adds a table of members.
    pub fn add_members(&mut self, members: Members<'t>) -> Result<(), AllocError>
        ensures { OnOk result (self.new ≡ with_members self.old members.entry) }
    {
        self.members.push(members)?;
        Ok(())
    }

    /// Adds a system type.
    pub fn add_system(&mut self, row: SystemRow) -> Result<(), AllocError>
        ensures { OnOk result (self.new ≡ with_system self.old row) }
    {
        self.systems.push(row)?;
        Ok(())
    }

    /// Adds a routine, and returns its number.
    pub fn add_routine(&mut self, row: RoutineRow) -> Result<usize, AllocError>
        ensures number { IfOk result (λ n. n ≡ length self.old.routines) }
        ensures added { OnOk result (self.new ≡ with_routine self.old row) }
    {
        let number = self.routines.len();
        self.routines.push(row)?;
        Ok(number)
    }

    /// Adds parameters.
    pub fn add_parameters(&mut self, rows: &[ParameterRow]) -> Result<(), AllocError>
        ensures { OnOk result (self.new ≡ with_parameters self.old rows.now) }
    {
        self.parameters.extend_from_slice(rows)
    }

    /// Sets the region that the statements are in.
    pub fn set_region(&mut self, region: Region)
        ensures { self.new ≡ record self.old { region = region } }
    {
        self.region = region;
    }
}
