//! The walk over statements: which of them run, and on which conditions.

use crate::flow::{Flow, Reach, Times};
use crate::note::NoteKind;
use crate::walk::Walk;
use cp_model::tree::{Arm, Designator, Direction, Expression, ForHeader, Statement};
use std::alloc::AllocError;

// What is known before a statement that runs on a condition.
#[derive(Clone, Copy)]
struct Branch {
    flow: Flow,
    inits: usize,
}

impl<'t> Walk<'t> {
    fn enter(&mut self) -> Branch {
        self.inside.conditions = self.inside.conditions.saturating_add(1);
        Branch {
            flow: self.flow,
            inits: self.inits.count(),
        }
    }

    // Goes back to the beginning of a branch.
    fn back(&mut self, branch: Branch) {
        self.flow = branch.flow;
        self.inits.forget(branch.inits);
    }

    // Leaves a branch for the place where the ways meet.
    fn leave(&mut self, branch: Branch, flow: Flow) {
        self.back(branch);
        self.flow = flow;
        self.inside.conditions = self.inside.conditions.saturating_sub(1);
    }

    // Whether a condition holds, if it is a constant.
    fn holds(&self, condition: &Expression) -> Option<bool> {
        match self.names.value(condition)? {
            0 => Some(false),
            _ => Some(true),
        }
    }

    // Notes a statement to which no way leads, once.
    fn never_runs(&mut self, statement: &Statement) -> Result<(), AllocError> {
        match (self.flow.reach, statement.first_place()) {
            (Reach::Closed, Some(at)) => {
                self.flow.reach = Reach::Reported;
                self.notes.add(at, NoteKind::NeverRuns)
            }
            _ => Ok(()),
        }
    }

    /// Walks over statements.
    #[cycle(statements)]
    pub(crate) fn statements(&mut self, list: &'t [Statement]) -> Result<(), AllocError> {
        for s in list {
            if self.flow.is_open() {
                self.statement(s)?;
            } else {
                self.never_runs(s)?;
            }
        }
        Ok(())
    }

    #[cycle(statements)]
    fn statement(&mut self, statement: &'t Statement) -> Result<(), AllocError> {
        match statement {
            Statement::Empty => Ok(()),
            Statement::Assign(a) => {
                self.sets_counter(&a.target)?;
                self.assignment(&a.target, &a.value)
            }
            Statement::Call(c) => self.procedure_call(&c.procedure, &c.arguments),
            Statement::Compound(list) => self.statements(list),
            Statement::Init { items, .. } => self.init_items(items),
            _ => self.selected(statement),
        }
    }

    // Notes an assignment to the variable of a `for` around it.
    fn sets_counter(&mut self, target: &'t Designator) -> Result<(), AllocError> {
        let name = target.root.name.as_bytes();
        let is_counter = self
            .counters
            .iter()
            .any(|counter| counter.name.as_bytes() == name);
        if is_counter && target.selectors.is_empty() {
            self.notes
                .add_on(target.root.at, NoteKind::CounterSet, name)?;
        }
        Ok(())
    }

    // Walks over a statement that selects one of others, or a loop.
    #[cycle(statements)]
    fn selected(&mut self, statement: &'t Statement) -> Result<(), AllocError> {
        match statement {
            Statement::Case { selector, arms } => {
                self.expression(selector)?;
                let branch = self.enter();
                let flow = self.arms(arms, branch)?;
                self.leave(branch, flow);
                Ok(())
            }
            Statement::IfElse {
                condition,
                branches,
            } => {
                self.expression(condition)?;
                match self.holds(condition) {
                    Some(true) => return self.statement(&branches.0),
                    Some(false) => return self.statement(&branches.1),
                    None => {}
                }
                let branch = self.enter();
                self.statement(&branches.0)?;
                let flow = self.flow;
                self.back(branch);
                self.statement(&branches.1)?;
                self.leave(branch, flow.or(self.flow));
                Ok(())
            }
            _ => self.repeated(statement),
        }
    }

    // Walks over a loop, or an `if` without `else`.
    #[cycle(statements)]
    fn repeated(&mut self, statement: &'t Statement) -> Result<(), AllocError> {
        match statement {
            Statement::If { condition, then } => {
                self.expression(condition)?;
                let times = match self.holds(condition) {
                    Some(true) => Times::Once,
                    Some(false) => Times::Never,
                    None => Times::Unknown,
                };
                self.runs(then, times)
            }
            Statement::While { condition, body } => {
                self.expression(condition)?;
                let times = match self.holds(condition) {
                    Some(true) => Times::Always,
                    Some(false) => Times::Never,
                    None => Times::Unknown,
                };
                self.runs(body, times)
            }
            Statement::For { header, body } => {
                self.expression(&header.from)?;
                self.expression(&header.last)?;
                let times = self.times(header);
                self.counters.push(&header.variable)?;
                self.runs(body, times)?;
                self.counters.pop();
                Ok(())
            }
            Statement::Repeat { body, condition } => {
                let inits = self.inits.count();
                self.statements(body)?;
                self.until(condition, inits)
            }
            Statement::Cycle(list) => {
                let inits = self.inits.count();
                self.statements(list)?;
                self.never_ends(inits)
            }
            _ => Ok(()),
        }
    }

    #[cycle(statements)]
    fn arms(&mut self, arms: &'t [Arm], branch: Branch) -> Result<Flow, AllocError> {
        let mut flow = Flow::NOWHERE;
        for arm in arms {
            self.back(branch);
            self.statement(&arm.body)?;
            flow = flow.or(self.flow);
        }
        Ok(flow)
    }

    // Walks over a statement that runs so many times.
    #[cycle(statements)]
    fn runs(&mut self, statement: &'t Statement, times: Times) -> Result<(), AllocError> {
        let inits = self.inits.count();
        match times {
            Times::Never => Ok(()),
            Times::Once => self.statement(statement),
            Times::Often => {
                self.statement(statement)?;
                self.comes_round(inits)
            }
            Times::Always => {
                self.statement(statement)?;
                self.never_ends(inits)
            }
            Times::Unknown => {
                let branch = self.enter();
                self.statement(statement)?;
                self.leave(branch, branch.flow.or(self.flow));
                Ok(())
            }
        }
    }

    // Walks over the end of a `repeat`, before which so many components were initialised.
    fn until(&mut self, condition: &'t Expression, inits: usize) -> Result<(), AllocError> {
        if !self.flow.is_open() {
            return Ok(());
        }
        self.expression(condition)?;
        match self.holds(condition) {
            Some(false) => self.never_ends(inits),
            _ => Ok(()),
        }
    }

    // Walks over the end of a loop that never ends, before which so many components were
    // initialised.
    fn never_ends(&mut self, inits: usize) -> Result<(), AllocError> {
        self.comes_round(inits)?;
        if self.flow.is_open() {
            self.flow = Flow::NOWHERE;
        }
        Ok(())
    }

    // How often the statement of a `for` runs, if its bounds are constants.
    fn times(&self, header: &ForHeader) -> Times {
        let from = self.names.value(&header.from);
        let last = self.names.value(&header.last);
        let (Some(from), Some(last)) = (from, last) else {
            return Times::Unknown;
        };
        let (low, high) = match header.direction {
            Direction::Up => (from, last),
            Direction::Down => (last, from),
        };
        if high < low {
            Times::Never
        } else if low < high {
            Times::Often
        } else {
            Times::Once
        }
    }
}
