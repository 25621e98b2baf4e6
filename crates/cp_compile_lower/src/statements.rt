//! Translates statements.
//!
//! A list of statements is emitted from its last to its first, so that the place to which an
//! operation leads is already known. The operation that closes a loop is emitted before the loop's
//! body, which leads to it, and completed afterwards.

ghost use Rattle.std.specs.Prelude.{ℕ, IfOk, map};
ghost use Rattle.cp_model.specs.Abstract as a;
ghost use Rattle.cp_model.specs.Erase as erase;
ghost use Rattle.cp_model.specs.View as tree;
ghost use Rattle.cp_compile_lower.specs.Statements.{ArmsOf, StatementOf};

use crate::translator::Translator;
use cp_compile_emit::Emitter;
use cp_compile_symbols::small_sum;
use cp_model::places::first_place;
use cp_model::tree::{Arm, Expression, ForHeader, Statement};
use cp_program::arm::Arm as CodedArm;
use cp_program::operation::Operation;
use std::alloc::AllocError;

impl<'s, 't> Translator<'s, 't> {
    /// Emits the operations of a statement, which lead to the place `next`, and returns the place
    /// where they are entered. Temps are free from `low` on.
    #[cycle(statements)]
    pub fn statement(
        &self,
        statement: &Statement,
        low: u32,
        next: u32,
        emitter: &mut Emitter,
    ) -> Result<u32, AllocError>
        ensures { IfOk result (StatementOf self.now.scope emitter.old emitter.new
            (erase.statement (tree.statement statement.now)) low next) }
    {
        match statement {
            Statement::Empty => Ok(next),
            Statement::Assign(a) => self.assign(&a.target, &a.value, low, next, emitter),
            Statement::Call(c) => self.perform(&c.procedure, &c.arguments, low, next, emitter),
            Statement::Compound(list) => self.statements(list, low, next, emitter),
            Statement::If { condition, then } => {
                let yes = self.statement(then, low, next, emitter)?;
                self.test(condition, low, yes, next, emitter)
            }
            Statement::IfElse {
                condition,
                branches,
            } => {
                let no = self.statement(&branches.1, low, next, emitter)?;
                let yes = self.statement(&branches.0, low, next, emitter)?;
                self.test(condition, low, yes, no, emitter)
            }
            Statement::Case { selector, arms } => self.case(arms, selector, low, next, emitter),
            Statement::While { condition, body } => {
                self.while_loop(body, condition, low, next, emitter)
            }
            Statement::Repeat { body, condition } => {
                self.repeat(body, condition, low, next, emitter)
            }
            Statement::For { header, body } => self.for_loop(body, header, low, next, emitter),
            Statement::Cycle(list) => self.cycle(list, low, emitter),
            Statement::Init { items, .. } => self.initialise(items, low, next, emitter),
        }
    }

    /// Emits statements that run one after another.
    #[cycle(statements)]
    pub fn statements(
        &self,
        list: &[Statement],
        low: u32,
        next: u32,
        emitter: &mut Emitter,
    ) -> Result<u32, AllocError>
        ensures { IfOk result (StatementOf self.now.scope emitter.old emitter.new
            (erase.statements (tree.statements_of (map tree.statement list.now))) low next) }
    {
        let mut entry = next;
        for i in (0..list.len()).rev() {
            entry = self.statement(&list[i], low, entry, emitter)?;
        }
        Ok(entry)
    }

    #[cycle(statements)]
    fn case(
        &self,
        list: &[Arm],
        selector: &Expression,
        low: u32,
        next: u32,
        emitter: &mut Emitter,
    ) -> Result<u32, AllocError>
        ensures { IfOk result (StatementOf self.now.scope emitter.old emitter.new
            (a.Case (erase.expression (tree.expression selector.now))
            (erase.arms (tree.arms_of (map tree.arm list.now)))) low next) }
    {
        let arms = self.arms(list, low, next, emitter)?;
        self.choose(selector, arms, low, emitter)
    }

    // Emits the statements of a `case`, and returns where each of their labels leads.
    #[cycle(statements)]
    fn arms(
        &self,
        list: &[Arm],
        low: u32,
        next: u32,
        emitter: &mut Emitter,
    ) -> Result<Vec<CodedArm>, AllocError>
        ensures { IfOk result (λ arms. ArmsOf self.now.scope emitter.old emitter.new
            (erase.arms (tree.arms_of (map tree.arm list.now))) low next arms.items) }
    {
        let mut arms = Vec::new(self.alloc);
        for i in (0..list.len()).rev() {
            let arm = &list[i];
            let entry = self.statement(&arm.body, low, next, emitter)?;
            self.label(&arm.labels, entry, &mut arms)?;
        }
        arms.reverse();
        Ok(arms)
    }

    #[cycle(statements)]
    fn while_loop(
        &self,
        body: &Statement,
        condition: &Expression,
        low: u32,
        next: u32,
        emitter: &mut Emitter,
    ) -> Result<u32, AllocError>
        ensures { IfOk result (StatementOf self.now.scope emitter.old emitter.new
            (a.While (erase.expression (tree.expression condition.now))
            (erase.statement (tree.statement body.now))) low next) }
    {
        let place = emitter.place()?;
        let entry = self.test(condition, low, 0, next, emitter)?;
        let first = self.statement(body, low, entry, emitter)?;
        emitter.close_loop(place, first);
        Ok(entry)
    }

    #[cycle(statements)]
    fn repeat(
        &self,
        list: &[Statement],
        condition: &Expression,
        low: u32,
        next: u32,
        emitter: &mut Emitter,
    ) -> Result<u32, AllocError>
        ensures { IfOk result (StatementOf self.now.scope emitter.old emitter.new
            (a.Repeat (erase.statements (tree.statements_of (map tree.statement list.now)))
            (erase.expression (tree.expression condition.now))) low next) }
    {
        let place = emitter.place()?;
        let entry = self.test(condition, low, next, 0, emitter)?;
        let first = self.statements(list, low, entry, emitter)?;
        emitter.close_repeat(place, first);
        Ok(first)
    }

    // While the body of a `for` runs, two temps keep its counter and its last value.
    #[cycle(statements)]
    fn for_loop(
        &self,
        body: &Statement,
        header: &ForHeader,
        low: u32,
        next: u32,
        emitter: &mut Emitter,
    ) -> Result<u32, AllocError>
        ensures { IfOk result (StatementOf self.now.scope emitter.old emitter.new
            (a.For header.now.variable.name (erase.is_down header.now.direction)
            (erase.expression (tree.expression header.now.from))
            (erase.expression (tree.expression header.now.last))
            (erase.statement (tree.statement body.now))) low next) }
    {
        let inner = small_sum(low, 2)?;
        let variable = &header.variable;
        let name = variable.name.as_bytes();
        let mut counting = self.counting(name, header.direction, low, next)?;
        let place = emitter.push(Operation::ForNext(counting), variable.at)?;
        let first = self.statement(body, inner, place, emitter)?;
        emitter.close_loop(place, first);
        counting.body = first;
        self.start_counting(counting, &header.from, &header.last, variable.at, emitter)
    }

    #[cycle(statements)]
    fn cycle(&self, list: &[Statement], low: u32, emitter: &mut Emitter) -> Result<u32, AllocError>
        ensures { IfOk result (λ entry. (next : ℕ) → StatementOf self.now.scope emitter.old
            emitter.new (a.Cycle (erase.statements (tree.statements_of
            (map tree.statement list.now)))) low next entry) }
    {
        let origin = first_place(list).unwrap_or(self.origin);
        let place = emitter.push(Operation::Cycle { body: 0 }, origin)?;
        let first = self.statements(list, low, place, emitter)?;
        emitter.close_loop(place, first);
        Ok(place)
    }
}
