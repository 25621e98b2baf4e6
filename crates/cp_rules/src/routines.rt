//! Routines: their headings, their variables and bodies, and the words that they need.

ghost use Rattle.std.specs.Prelude.{◌≡◌, ◌+◌, ◌++◌, ◌∷◌, [], IfOk, OnOk, length, map, take};
ghost use Rattle.cp_model.specs.RulesDeclarations as d;
ghost use Rattle.cp_model.specs.RulesEnvironment as r;
ghost use Rattle.cp_model.specs.View as view;
ghost use Rattle.cp_model.specs.declared.rules.Entity.TheVariants as entities;
ghost use Rattle.cp_rules.specs.Checking.{after};
ghost use Rattle.cp_rules.specs.Headings.{collection};
ghost use Rattle.cp_rules.specs.Routines.{HeadsRoutine, JudgesBody, inside, locals, row_as, with_finished};

use crate::checker::{Checker, Judged};
use crate::headings::Heading;
use crate::results::{part, returns, words};
use crate::words::sum;
use cp_model::rules::{Entity, Position, Region, Returns, RoutineRow};
use cp_model::tree::{Routine, Sort};
use std::alloc::AllocError;

// What a routine's name represents in its own heading.
const NO_ROUTINE: RoutineRow = RoutineRow {
    entry: false,
    first: 0,
    count: 0,
    returns: Returns::Nothing,
    need: 0,
};

// The row of a routine before its need is known. Its parameters are the next ones in the table.
fn row(
    first: usize,
    count: usize,
    entry: Option<usize>,
    answer: Option<Judged<usize>>,
) -> RoutineRow
    ensures { result ≡ row_as first count entry answer }
{
    RoutineRow {
        entry: entry.is_some(),
        first,
        count,
        returns: returns(answer),
        need: 0,
    }
}

impl<'t> Checker<'t> {
    // Declares the name of a routine, and judges its heading and the type of its result.
    fn routine_heading(
        &mut self,
        sort: Sort,
        routine: &'t Routine,
    ) -> Result<(Heading<'t>, Option<Judged<usize>>), AllocError>
        ensures { IfOk result
            (λ p. HeadsRoutine self.old self.new p.0 p.1 sort (view.routine routine.now)) }
    {
        self.declare(&routine.name, Entity::UnfinishedRoutine(NO_ROUTINE))?;
        let inside = self.mark();
        self.judge_entry(sort, routine.entry);
        let is_function = routine.result_type.is_some();
        let heading = self.heading(None, is_function, &routine.parameters)?;
        let answer = self.result_type(&routine.result_type);
        self.leave(inside);
        Ok((heading, answer))
    }

    // Judges the variables and the body of a routine, and returns the words that they take.
    fn routine_body(
        &mut self,
        sort: Sort,
        routine: &'t Routine,
        heading: &Heading<'t>,
    ) -> Result<usize, AllocError>
        ensures { IfOk result
            (λ n. JudgesBody self.old self.new n
            (locals (inside self.old.env sort (view.routine routine.now)
            (collection heading.now)) (view.routine routine.now)) (view.body routine.now.body)) }
    {
        let region = Region {
            sort,
            part: part(routine.entry),
        };
        self.enter(&heading.rows, region)?;
        self.add_each(&heading.bound)?;
        let words = self.variables(Position::RoutineVariable, &routine.variables)?;
        self.statements(&routine.body.statements)?;
        Ok(sum(words, self.need(&routine.body.statements)))
    }

    // Adds the row of a routine. Its name represents the routine from now on.
    fn finish_routine(
        &mut self,
        outside: usize,
        region: Region,
        row: RoutineRow,
    ) -> Result<(), AllocError>
        ensures { OnOk result (self.new ≡ with_finished self.old outside region row) }
    {
        self.environment.set_region(region);
        let number = self.environment.add_routine(row)?;
        self.set_from(outside, Entity::Routine(number));
        Ok(())
    }

    /// Declares a routine of a component of this sort, and judges it. Fails only if memory runs
    /// out.
    pub fn routine(&mut self, sort: Sort, routine: &'t Routine) -> Result<(), AllocError>
        ensures { OnOk result
            (self.new ≡ after self.old (d.routine self.old.env sort (view.routine routine.now))) }
    {
        let outside = self.mark();
        let region = self.environment.region();
        let (heading, answer) = self.routine_heading(sort, routine)?;
        let first = self.environment.parameter_count();
        let mut row = row(first, heading.rows.len(), routine.entry, answer);
        self.set_from(outside, Entity::UnfinishedRoutine(row));
        let inside = self.mark();
        let more = self.routine_body(sort, routine, &heading)?;
        self.leave(inside);
        row.need = sum(sum(1 + words(answer), heading.words), more);
        self.finish_routine(outside, region, row)
    }

    /// Declares routines of a component of this sort, one after another. Fails only if memory runs
    /// out.
    pub fn routines(&mut self, sort: Sort, list: &'t [Routine]) -> Result<(), AllocError>
        ensures { OnOk result
            (self.new ≡ after self.old (d.routines self.old.env sort (map view.routine list.now))) }
    {
        self.environment.reserve_names(list.len())?;
        self.environment.reserve_routines(list.len())?;
        for routine in list {
            self.routine(sort, routine)?;
        }
        Ok(())
    }
}
