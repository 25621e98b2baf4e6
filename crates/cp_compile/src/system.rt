//! Compiles the units of a system type: its routines in text order, followed by its body.

ghost use Rattle.std.specs.Prelude.{◌≡◌, List, ℕ, OnOk, length};
ghost use Rattle.cp_model.specs.Abstract.{Name, Routine, System};
ghost use Rattle.cp_model.specs.Erase as erase;
ghost use Rattle.cp_model.specs.Types.{GlobalScope};
ghost use Rattle.cp_model.specs.View as tree;
ghost use Rattle.cp_model_program.specs.Compile.{Compiled, with_body, with_routine, with_routines, with_system};
ghost use Rattle.cp_model_program.specs.IsProgramFor.{end_of};
ghost use Rattle.cp_compile_symbols.specs.Routines.{RoutineRepresents};
ghost use Rattle.cp_compile_symbols.specs.Systems.{routines_of};
ghost use Rattle.cp_program.specs.View as view;
ghost use Rattle.cp_compile.specs.Compiles.{EndsAt, MayAdd, body_of};
ghost use Rattle.cp_compile_emit.specs.Emission.{Continues};
ghost use Rattle.cp_compile.specs.CompiledSystems.{IsSystem, Makes};

use crate::unit::compile_unit;
use cp_base_names::NameTable;
use cp_compile_emit::Emitter;
use cp_compile_emit::plan::Planner;
use cp_compile_lower::Translator;
use cp_compile_symbols::{RoutineTable, Scope, SystemTable, Tables};
use cp_model::tree::{Routine, Sort, Statement};
use cp_program::operation::Operation;
use std::alloc::AllocError;

/// What the units of a system type are compiled with: the tables of the text, the planner, the
/// first unit of each type that was defined before, by name, the table of the system type, and its
/// own first unit.
#[derive(Clone, Copy)]
pub struct SystemCompiler<'s, 't> {
    pub(crate) tables: &'s Tables<'t>,
    pub(crate) planner: &'s Planner<'s, 't>,
    pub(crate) firsts: &'s NameTable<'t, u32>,
    pub(crate) system: &'s SystemTable<'t>,
    pub(crate) first: u32,
}

// The operation with which a body ends.
fn end_of(sort: Sort) -> Operation
    ensures { view.operation result ≡ end_of (erase.sort_of sort) }
{
    match sort {
        Sort::Process => Operation::End,
        _ => Operation::EndBody,
    }
}

impl<'s, 't> SystemCompiler<'s, 't> {
    // Compiles a routine.
    fn routine(
        &self,
        table: &RoutineTable<'t>,
        text: &Routine,
        emitter: &mut Emitter,
    ) -> Result<(), AllocError>
        ensures code { OnOk result ((g : GlobalScope) (s : System) (firsts : List (Name × ℕ))
            (c : Compiled) → IsSystem self.now g s firsts
            → RoutineRepresents g self.now.tables.now.types table.now
            (erase.routine (tree.routine text.now)) → Makes self.now emitter.old emitter.new c
            (with_routine g s firsts self.now.first (erase.routine (tree.routine text.now)) c)) }
        ensures origin { OnOk result ((g : GlobalScope) (s : System) (firsts : List (Name × ℕ))
            → IsSystem self.now g s firsts → RoutineRepresents g self.now.tables.now.types table.now
            (erase.routine (tree.routine text.now))
            → MayAdd text.now.name.at emitter.old.origins.items emitter.new.origins.items) }
    {
        let is_function = text.result_type.is_some();
        let scope = Scope::new(
            self.tables,
            self.system,
            Some(table),
            self.firsts,
            self.first,
        );
        if !scope.activation_fits() {
            return emitter.leave_out(self.planner.alloc());
        }
        let starts = self
            .planner
            .routine(is_function, &table.parameters, &table.variables)?;
        if !scope.component_fits() {
            return emitter.add_stub(scope.words()?, starts);
        }
        let last = Operation::Return {
            function: is_function,
        };
        let translator = Translator {
            scope,
            alloc: self.planner.alloc(),
            origin: text.name.at,
        };
        compile_unit(translator, starts, last, &text.body.statements, emitter)
    }

    // Compiles routines.
    fn routines(&self, texts: &[Routine], emitter: &mut Emitter) -> Result<(), AllocError>
        ensures code { OnOk result ((g : GlobalScope) (s : System) (firsts : List (Name × ℕ))
            (c : Compiled) → IsSystem self.now g s firsts → s.routines ≡ routines_of texts.now
            → Makes self.now emitter.old emitter.new c
            (with_routines g s firsts self.now.first (routines_of texts.now) c)) }
        ensures origins { OnOk result ((g : GlobalScope) (s : System) (firsts : List (Name × ℕ))
            → IsSystem self.now g s firsts → s.routines ≡ routines_of texts.now
            → Continues emitter.old.origins.items emitter.new.origins.items) }
    {
        for i in 0..texts.len() {
            let Some(table) = self.system.routine_at(i) else {
                // There is a table for each routine.
                continue;
            };
            self.routine(table, &texts[i], emitter)?;
        }
        Ok(())
    }

    // Compiles the body, which begins at the place `origin`.
    fn body(
        &self,
        sort: Sort,
        body: &[Statement],
        origin: usize,
        emitter: &mut Emitter,
    ) -> Result<(), AllocError>
        ensures code { OnOk result ((g : GlobalScope) (s : System) (firsts : List (Name × ℕ))
            (c : Compiled) → IsSystem self.now g s firsts → s.sort ≡ erase.sort_of sort
            → s.body ≡ body_of body.now → Makes self.now emitter.old emitter.new c
            (with_body g s firsts self.now.first c)) }
        ensures origin { OnOk result ((g : GlobalScope) (s : System) (firsts : List (Name × ℕ))
            → IsSystem self.now g s firsts
            → MayAdd origin emitter.old.origins.items emitter.new.origins.items) }
    {
        let scope = Scope::new(self.tables, self.system, None, self.firsts, self.first);
        let alloc = self.planner.alloc();
        if !scope.component_fits() {
            return emitter.add_stub(0, Vec::new(alloc));
        }
        let translator = Translator {
            scope,
            alloc,
            origin,
        };
        compile_unit(translator, Vec::new(alloc), end_of(sort), body, emitter)
    }

    /// Compiles the routines and the body of the system type. The body begins at the place
    /// `origin`.
    pub fn compile(
        &self,
        sort: Sort,
        routines: &[Routine],
        body: &[Statement],
        origin: usize,
        emitter: &mut Emitter,
    ) -> Result<(), AllocError>
        ensures code { OnOk result ((g : GlobalScope) (s : System) (firsts : List (Name × ℕ))
            (c : Compiled) → IsSystem self.now g s firsts → self.now.first ≡ length c.units
            → s.sort ≡ erase.sort_of sort → s.routines ≡ routines_of routines.now
            → s.body ≡ body_of body.now
            → Makes self.now emitter.old emitter.new c (with_system g firsts s c)) }
        ensures origin { OnOk result ((g : GlobalScope) (s : System) (firsts : List (Name × ℕ))
            → IsSystem self.now g s firsts → s.routines ≡ routines_of routines.now
            → EndsAt origin emitter.old.origins.items emitter.new.origins.items) }
    {
        self.routines(routines, emitter)?;
        self.body(sort, body, origin, emitter)
    }
}
