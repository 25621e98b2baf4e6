//! Monitors and processes, and where their words are.

ghost use Rattle.std.specs.Prelude.{◌≡◌, ◌++◌, ◌∷◌, [], List, Some, ℕ, IfOk, OnOk, slice_get};
ghost use Rattle.cp_model.specs.Abstract.{Group, Name};
ghost use Rattle.cp_model.specs.Declarations.{Variable};
ghost use Rattle.cp_model.specs.Erase as erase;
ghost use Rattle.cp_model.specs.Types.{GlobalScope};
ghost use Rattle.cp_model_program.specs.Compile as code;
ghost use Rattle.cp_model_program.specs.Compile.{of_sort, owners_of};
ghost use Rattle.cp_compile_symbols.specs.Numbering.{system_of};
ghost use Rattle.cp_compile_symbols.specs.Representing.{Represents, row_at, system_at};
ghost use Rattle.cp_model_program.specs.Programs.{StartPlan};
ghost use Rattle.cp_compile.specs.CompiledComponents.{AreOwners, IsInitial, IsOwner, PutsOwner};

use cp_base_names::NameTable;
use cp_compile_symbols::{Declared, SystemTable, Tables, small_number, small_sum};
use cp_model::tree::{Sort, System};
use std::alloc::AllocError;

/// A monitor or a process: the unit of its body, the number of its words, the number of shared
/// words in which its parameters wait, and the number of its plan.
#[derive(Clone, Copy)]
pub struct Owner {
    pub(crate) body: u32,
    pub(crate) words: u32,
    pub(crate) waiting: u32,
    pub(crate) plan: u32,
}

/// What the components of a text are made from: its tables, the first unit of each type by name,
/// and the number of the plan of the first system type.
#[derive(Clone, Copy)]
pub struct InitialCompiler<'s, 't> {
    pub(crate) tables: &'s Tables<'t>,
    pub(crate) firsts: &'s NameTable<'t, u32>,
    pub(crate) plans: u32,
}

impl Owner {
    /// Makes a component of a system type, given the unit of its body and the number of its plan.
    pub fn of(table: &SystemTable, body: u32, plan: u32) -> Result<Owner, AllocError>
        ensures { IfOk result (IsOwner table.now body plan) }
    {
        let waiting = small_number(table.parameters.len())?;
        Ok(Owner {
            body,
            words: table.members.words.ok_or(AllocError)?,
            waiting: small_sum(waiting, 1)?,
            plan,
        })
    }
}

impl<'s, 't> InitialCompiler<'s, 't> {
    // The component that a variable is, whose system type has this number, text and table.
    fn component(
        &self,
        declared: &Declared<'t>,
        number: usize,
        text: &'t System,
        table: &SystemTable,
    ) -> Result<Owner, AllocError>
        ensures { IfOk result (λ o. (plans : List StartPlan) (g : GlobalScope)
            (firsts : List (Name × ℕ)) (groups : List Group) (vs : List (Name × Variable))
            (v : Variable) → IsInitial self.now plans g firsts groups vs
            → Represents self.now.tables.now.types declared.now.of v.type
            → system_of (row_at self.now.tables.now.types declared.now.of) ≡ Some number
            → system_at self.now.tables.now.types number ≡ Some text.entry
            → slice_get self.now.tables.now.systems.items number ≡ Some table.now
            → PutsOwner plans g firsts groups (declared.now.name.now, v) o) }
    {
        let of = self.tables.initial.variable_type(declared.name);
        let first = self.firsts.find(of).unwrap_or(0);
        let routines = small_number(text.routines.len())?;
        let body = small_sum(first, routines)?;
        let behind = small_number(number)?;
        let plan = small_sum(self.plans, behind)?;
        Owner::of(table, body, plan)
    }

    // Adds the component that a variable is, if it is a component of this sort.
    fn add_owner(
        &self,
        sort: Sort,
        declared: &Declared<'t>,
        owners: &mut Vec<Owner>,
    ) -> Result<(), AllocError>
        ensures { OnOk result ((plans : List StartPlan) (g : GlobalScope)
            (firsts : List (Name × ℕ)) (groups : List Group) (vs : List (Name × Variable))
            (v : Variable) (before : List code.Owner) → IsInitial self.now plans g firsts groups vs
            → Represents self.now.tables.now.types declared.now.of v.type
            → AreOwners plans g owners.old.items before → AreOwners plans g owners.new.items
            (before ++ owners_of firsts groups
            (of_sort (erase.sort_of sort) ((declared.now.name.now, v) ∷ [])))) }
    {
        let types = &self.tables.types;
        if !types.is_component_of(sort, declared.of) {
            return Ok(());
        }
        let Some(number) = types.system_of(declared.of) else {
            return Ok(());
        };
        let Some(text) = types.system(number) else {
            return Ok(());
        };
        let Some(table) = self.tables.system(number) else {
            return Ok(());
        };
        owners.push(self.component(declared, number, text, table)?)?;
        Ok(())
    }

    /// Adds the components of a sort that the initial process declares.
    pub fn add_owners(&self, sort: Sort, owners: &mut Vec<Owner>) -> Result<(), AllocError>
        ensures { OnOk result ((plans : List StartPlan) (g : GlobalScope)
            (firsts : List (Name × ℕ)) (groups : List Group) (vs : List (Name × Variable))
            (before : List code.Owner) → IsInitial self.now plans g firsts groups vs
            → AreOwners plans g owners.old.items before → AreOwners plans g owners.new.items
            (before ++ owners_of firsts groups (of_sort (erase.sort_of sort) vs))) }
    {
        for d in &self.tables.initial.variables {
            self.add_owner(sort, d, owners)?;
        }
        Ok(())
    }
}
