//! The walk over expressions and calls.

use crate::walk::Walk;
use cp_explain_meanings::meaning::Meaning;
use cp_model::tree::{Designator, Expression, Index, Operation, Selector, Sort};
use std::alloc::AllocError;

impl<'t> Walk<'t> {
    /// Walks over an expression.
    #[cycle(expressions)]
    pub(crate) fn expression(&mut self, expression: &'t Expression) -> Result<(), AllocError> {
        match expression {
            Expression::Number { .. } | Expression::Character { .. } => Ok(()),
            Expression::Designated(d) => {
                self.designator(d)?;
                self.calls(d, &[])
            }
            Expression::Call(d, list) => {
                self.designator(d)?;
                self.expressions(list)?;
                self.calls(d, list)
            }
            Expression::Parenthesized { inner, .. } => self.expression(inner),
            Expression::Not { operand, .. } | Expression::Signed { operand, .. } => {
                self.expression(operand)
            }
            Expression::Chain { first, rest } => {
                self.expression(first)?;
                self.operations(rest)
            }
        }
    }

    #[cycle(expressions)]
    fn operations(&mut self, rest: &'t [Operation]) -> Result<(), AllocError> {
        for operation in rest {
            self.expression(&operation.operand)?;
            self.divides(operation)?;
        }
        Ok(())
    }

    /// Walks over expressions.
    #[cycle(expressions)]
    pub(crate) fn expressions(&mut self, list: &'t [Expression]) -> Result<(), AllocError> {
        for e in list {
            self.expression(e)?;
        }
        Ok(())
    }

    // Walks over the indices of a designator.
    #[cycle(expressions)]
    fn designator(&mut self, designator: &'t Designator) -> Result<(), AllocError> {
        for selector in &designator.selectors {
            if let Selector::Indexed(list) = selector {
                self.indices(list)?;
            }
        }
        Ok(())
    }

    #[cycle(expressions)]
    fn indices(&mut self, list: &'t [Index]) -> Result<(), AllocError> {
        for index in list {
            self.expression(&index.value)?;
        }
        Ok(())
    }

    /// Walks over a call of a procedure.
    pub(crate) fn procedure_call(
        &mut self,
        designator: &'t Designator,
        list: &'t [Expression],
    ) -> Result<(), AllocError> {
        self.designator(designator)?;
        self.expressions(list)?;
        self.calls(designator, list)
    }

    /// Walks over what is assigned to. Returns what it represents.
    pub(crate) fn target(
        &mut self,
        designator: &'t Designator,
    ) -> Result<Option<Meaning<'t>>, AllocError> {
        self.designator(designator)?;
        self.meaning(designator)
    }

    // Walks over the call that a designator represents, unless it is a variable or a constant.
    fn calls(
        &mut self,
        designator: &'t Designator,
        list: &'t [Expression],
    ) -> Result<(), AllocError> {
        match self.meaning(designator)? {
            Some(Meaning::Routine(number)) => self.calls_routine(number, list),
            Some(Meaning::Entry(sort, number)) => {
                self.enters(designator, sort, number)?;
                self.calls_routine(number, list)
            }
            Some(_) => Ok(()),
            None => self.calls_standard(designator, list),
        }
    }

    // Walks over a call of the routine with a number.
    fn calls_routine(&mut self, number: usize, list: &'t [Expression]) -> Result<(), AllocError> {
        let Some(behaviour) = self.behaviour(number) else {
            return Ok(());
        };
        self.inside.delays = self.inside.delays || behaviour.delays;
        self.arguments(&behaviour.routine.parameters, list)
    }

    // Walks over a call of an entry routine of a component of this sort.
    fn enters(
        &mut self,
        designator: &'t Designator,
        sort: Sort,
        number: usize,
    ) -> Result<(), AllocError> {
        let Some(behaviour) = self.behaviour(number) else {
            return Ok(());
        };
        if behaviour.delays {
            self.keeps_gate(designator, behaviour.routine)?;
        }
        match (sort, behaviour.queue) {
            (Sort::Monitor, Some(queue)) => self.comes_to(&designator.root, queue),
            _ => Ok(()),
        }
    }

    fn calls_standard(
        &mut self,
        designator: &'t Designator,
        list: &'t [Expression],
    ) -> Result<(), AllocError> {
        match designator.root.name.as_bytes() {
            b"delay" => self.delays(designator.root.at, list),
            b"continue" => self.continues(designator.root.at, list),
            b"chr" => self.makes_character(list),
            b"empty" => {
                self.inside.minds_queues = true;
                Ok(())
            }
            _ => Ok(()),
        }
    }
}
