//! System types: their parameters, variables, routines and bodies, and the words of a component.

ghost use Rattle.std.specs.Prelude.{◌≡◌, ◌+◌, ◌++◌, IfOk, OnOk, length, map};
ghost use Rattle.cp_model.specs.Rules as rules;
ghost use Rattle.cp_model.specs.RulesDeclarations as d;
ghost use Rattle.cp_model.specs.View as view;
ghost use Rattle.cp_rules.specs.Checking.{after, reporting};
ghost use Rattle.cp_rules.specs.Headings.{collection};
ghost use Rattle.cp_rules.specs.Systems.{HeadsSystem, JudgesParts, added_system, parts, row_as, with_finished, words_of};

use crate::checker::Checker;
use crate::headings::Heading;
use crate::words::sum;
use cp_model::rules::{Entity, Part, Position, Region, Structure, SystemRow, TypeRow};
use cp_model::tree::{Identifier, Sort, System};
use cp_rules_body::environment::Members;
use std::alloc::AllocError;

fn variable_position(sort: Sort) -> Position
    ensures { result ≡ rules.variable_position sort }
{
    match sort {
        Sort::Monitor => Position::MonitorVariable,
        _ => Position::ComponentVariable,
    }
}

// The number of words of a component: one, its parameters, its variables, and what its body needs
// if it is a process.
fn words_of(sort: Sort, count: usize, words: usize, need: usize) -> usize
    ensures { result ≡ words_of sort count words need }
{
    let own = sum(sum(1, count), words);
    match sort {
        Sort::Process => sum(own, need),
        _ => own,
    }
}

impl<'t> Checker<'t> {
    // Judges the heading of a system type, whose name is already declared.
    fn system_heading(&mut self, system: &'t System) -> Result<Heading<'t>, AllocError>
        ensures { IfOk result (λ h. HeadsSystem self.old self.new h (view.system system.now)) }
    {
        let outside = self.mark();
        let heading = self.heading(Some(system.sort), false, &system.parameters)?;
        self.leave(outside);
        Ok(heading)
    }

    // Judges the variables, the routines and the body of a system type, and returns the words of
    // its variables.
    fn system_parts(
        &mut self,
        system: &'t System,
        heading: &Heading<'t>,
    ) -> Result<usize, AllocError>
        ensures { IfOk result
            (λ n. JudgesParts self.old self.new n
            (parts self.old.env (view.system system.now) (collection heading.now))) }
    {
        let region = Region {
            sort: system.sort,
            part: Part::Body,
        };
        self.enter(&heading.rows, region)?;
        self.add_each(&heading.bound)?;
        let words = self.variables(variable_position(system.sort), &system.variables)?;
        self.routines(system.sort, &system.routines)?;
        self.statements(&system.body.statements)?;
        Ok(words)
    }

    // Adds a system type, and returns the number of the type.
    fn add_system(&mut self, row: SystemRow, members: Members<'t>) -> Result<usize, AllocError>
        ensures { IfOk result
            (λ t. (t ≡ length self.old.env.types)
            × (self.new ≡ record self.old { env = added_system self.old.env row members.entry })) }
    {
        let t = self.environment.type_count();
        let structure = Structure::System(self.environment.system_count());
        self.environment.add_type(TypeRow {
            structure,
            words: row.words,
            has_queues: false,
        })?;
        self.environment.add_members(members)?;
        self.environment.add_system(row)?;
        Ok(t)
    }

    // Adds the row of a system type. Its name represents the type from now on.
    fn finish_system(
        &mut self,
        outside: usize,
        region: Region,
        row: SystemRow,
        members: Members<'t>,
    ) -> Result<(), AllocError>
        ensures { OnOk result
            (self.new ≡ with_finished self.old outside region row members.entry) }
    {
        self.environment.set_region(region);
        let t = self.add_system(row, members)?;
        self.set_from(outside, Entity::Type(t));
        Ok(())
    }

    // The row of a system type whose parts were judged.
    fn system_row(&self, system: &System, first: usize, count: usize, words: usize) -> SystemRow
        ensures { result ≡ row_as self.now.env (view.system system.now) first count words }
    {
        let need = self.need(&system.body.statements);
        SystemRow {
            sort: system.sort,
            first,
            count,
            words: words_of(system.sort, count, words, need),
            body_need: need,
            members: self.environment.table_count(),
        }
    }

    /// Defines a system type, and judges its parts. Fails only if memory runs out.
    pub fn define_system(
        &mut self,
        name: &'t Identifier,
        system: &'t System,
    ) -> Result<(), AllocError>
        ensures { OnOk result
            (self.new ≡ after self.old
            (rules.define_system self.old.env name.now (view.system system.now))) }
    {
        let outside = self.mark();
        let region = self.environment.region();
        self.declare(name, Entity::UnfinishedType)?;
        let inside = self.mark();
        let heading = self.system_heading(system)?;
        let first = self.environment.parameter_count();
        let words = self.system_parts(system, &heading)?;
        let row = self.system_row(system, first, heading.rows.len(), words);
        let members = self.routine_members(inside)?;
        self.leave(inside);
        self.finish_system(outside, region, row, members)
    }
}
