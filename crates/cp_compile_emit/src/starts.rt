//! The plans of activations and components.

ghost use Rattle.std.specs.Prelude.{◌≡◌, ◌≤◌, ◌+◌, ◌-◌, true, List, suc, IfOk, OnOk, if◌then◌else◌, is_some, length, map, option_map, slice_get};
ghost use Rattle.cp_model_program.specs.Layout.{locals_words};
ghost use Rattle.cp_model_program.specs.Plans.{fill_before, plan_of_component, plan_of_routine};
ghost use Rattle.cp_model_program.specs.Programs as code;
ghost use Rattle.cp_model_program.specs.Starts.{unset};
ghost use Rattle.cp_compile_emit.specs.ComponentPlans.{ArePlans, table_fits};
ghost use Rattle.cp_compile_emit.specs.Drafts.{plan_of};
ghost use Rattle.cp_compile_emit.specs.Planning.{Extends, Knows, known_of, types_of};
ghost use Rattle.cp_model.specs.Abstract.{Name, Routine, System};
ghost use Rattle.cp_model.specs.Declarations.{Variable, declarations};
ghost use Rattle.cp_model.specs.Types.{GlobalScope};
ghost use Rattle.cp_compile_symbols.specs.Texts.{AreSystems};
ghost use Rattle.cp_compile_symbols.specs.Variables.{AreDeclared, declared_entry};
ghost use Rattle.cp_program.specs.View as view;

use crate::draft::Draft;
use crate::members::{add_members, own_parameters};
use crate::plan::Planner;
use cp_compile_symbols::{Declared, SystemTable, small_number, small_sum};
use cp_program::program::StartPiece;
use std::alloc::AllocError;

/// The word of a result that isn't set yet.
const UNSET: i32 = i32::MIN;

// The size of a result in words.
fn result_words(is_function: bool) -> u32
    ensures { result ≡ (if is_function then 1 else 0) }
{
    if is_function { 1 } else { 0 }
}

// Plans, before the variables of a function, that its result isn't set.
fn mark_result(is_function: bool, draft: &mut Draft) -> Result<(), AllocError>
    ensures { OnOk result ((known : List code.StartPlan) → plan_of known draft.new ≡
        (if is_function then fill_before 0 1 unset (plan_of known draft.old)
        else plan_of known draft.old)) }
{
    if is_function {
        draft.fill(0, 1, UNSET)?;
    }
    Ok(())
}

impl<'a, 't> Planner<'a, 't> {
    // The word at which the variables of an activation begin, after its parameters, which begin at
    // the word `at`.
    fn first_variable(&self, parameters: &[Declared<'t>], at: u32) -> Result<u32, AllocError>
        ensures { IfOk result (λ first. (g : GlobalScope) (vs : List (Name × Variable))
            → Knows self.now g
            → AreDeclared (types_of self.now) (map declared_entry parameters.now) vs
            → first ≡ at + locals_words g vs) }
    {
        let mut next = at;
        for d in parameters {
            let words = self.local_words(d.by_reference, d.of)?;
            next = small_sum(next, words)?;
        }
        Ok(next)
    }

    /// The plan of an activation of a routine with these parameters and variables. The plans of its
    /// parts are among those of the planner.
    pub fn routine(
        &self,
        is_function: bool,
        parameters: &[Declared<'t>],
        variables: &[Declared<'t>],
    ) -> Result<Vec<StartPiece>, AllocError>
        ensures { IfOk result (λ starts. (g : GlobalScope) (r : Routine) → Knows self.now g
            → AreDeclared (types_of self.now) (map declared_entry parameters.now)
            (declarations g r.parameters)
            → AreDeclared (types_of self.now) (map declared_entry variables.now)
            (declarations g r.variables)
            → is_function ≡ is_some r.result
            → view.plan_of (known_of self.now) starts.items ≡ plan_of_routine g r) }
    {
        let mut members = Vec::new(self.alloc);
        add_members(&mut members, variables)?;
        let first = self.first_variable(parameters, result_words(is_function))?;
        let mut draft = self.plan_members(false, &members, first)?;
        mark_result(is_function, &mut draft)?;
        Ok(draft.into_starts())
    }

    // The plan of a component of a system type with these parameters and variables, whose words are
    // 0 before.
    fn plan_component_of(
        &self,
        parameters: &[Declared<'t>],
        variables: &[Declared<'t>],
    ) -> Result<Draft, AllocError>
        ensures { IfOk result (λ draft. (g : GlobalScope) (s : System) → Knows self.now g
            → AreDeclared (types_of self.now) (map declared_entry parameters.now)
            (declarations g s.parameters)
            → AreDeclared (types_of self.now) (map declared_entry variables.now)
            (declarations g s.variables)
            → plan_of (known_of self.now) draft ≡ plan_of_component g s) }
    {
        let own = own_parameters(self.alloc, &self.tables.types, parameters)?;
        let mut members = Vec::new(self.alloc);
        add_members(&mut members, &own)?;
        add_members(&mut members, variables)?;
        let head = head_words(parameters.len(), own.len())?;
        self.plan_members(true, &members, head)
    }

    /// Adds the plan of a component of a system type with these parameters and variables, whose
    /// words are 0 before, and returns its number. Nothing is planned for a component that doesn't
    /// fit.
    pub fn add_component(
        &mut self,
        fits: bool,
        parameters: &[Declared<'t>],
        variables: &[Declared<'t>],
    ) -> Result<u32, AllocError>
        ensures extends { Extends self.old self.new }
        ensures types { self.new.types ≡ self.old.types }
        ensures added { OnOk result (length self.new.plans.items
            ≡ suc (length self.old.plans.items)) }
        ensures number { IfOk result (λ n. n ≡ length self.old.plans.items) }
        ensures plan { IfOk result (λ n. (g : GlobalScope) (s : System) → Knows self.old g
            → fits ≡ true
            → AreDeclared (types_of self.old) (map declared_entry parameters.now)
            (declarations g s.parameters)
            → AreDeclared (types_of self.old) (map declared_entry variables.now)
            (declarations g s.variables)
            → view.plan_at (known_of self.new) n ≡ plan_of_component g s) }
        ensures knows { (g : GlobalScope) → Knows self.old g → Knows self.new g }
    {
        let draft = if fits {
            self.plan_component_of(parameters, variables)?
        } else {
            Draft::new(self.alloc)
        };
        self.add_plan(draft)
    }

    // The table of the system type with this number.
    fn table(&self, number: usize) -> Option<&'a SystemTable<'t>>
        ensures { option_map (λ t. t.now) result ≡ slice_get self.now.tables.now.systems.items
            number }
    {
        let tables = self.tables;
        tables.systems.get(number)
    }

    /// Adds the plans of the components of all system types, and returns the number of the first
    /// one. They have the order of the system types.
    pub fn add_components(&mut self) -> Result<u32, AllocError>
        ensures extends { Extends self.old self.new }
        ensures knows { (g : GlobalScope) → Knows self.old g → Knows self.new g }
        ensures plans { IfOk result (λ first. (g : GlobalScope) → Knows self.old g
            → AreSystems g (types_of self.old) self.old.tables.now.systems.items
            → ArePlans g self.old.tables.now (known_of self.new) first) }
    {
        let first = small_number(self.plans.len())?;
        let mut count: usize = 0;
        while let Some(table) = self.table(count) {
            self.add_component(has_room(table), &table.parameters, &table.variables)?;
            count += 1;
        }
        Ok(first)
    }
}

/// Whether a component of a system type has room.
pub fn has_room(table: &SystemTable) -> bool
    ensures { result ≡ table_fits table.now }
{
    table.members.words.is_some()
}

// The number of words before the members: the mark, and one for each parameter that is a right.
fn head_words(parameters: usize, own: usize) -> Result<u32, AllocError>
    ensures { IfOk result (λ head. head ≡ suc (parameters - own)) }
{
    small_sum(small_number(parameters.saturating_sub(own))?, 1)
}
