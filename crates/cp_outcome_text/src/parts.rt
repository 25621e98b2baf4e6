//! What statements are made of: those that contain no others, and designators.

use cp_model::tree::{Arm, Designator, Expression, Operation, Selector, Statement};
use std::alloc::{AllocError, Global};

/// The parts of statements, in text order.
#[derive(Drop)]
pub struct Parts<'t> {
    /// The statements that contain no others.
    pub statements: Vec<&'t Statement>,
    /// The designators in statements and expressions.
    pub designators: Vec<&'t Designator>,
}

impl<'t> Parts<'t> {
    /// No parts.
    pub fn new(alloc: Global) -> Parts<'t> {
        Parts {
            statements: Vec::new(alloc),
            designators: Vec::new(alloc),
        }
    }

    /// Adds the parts of these statements. Fails only if memory runs out.
    #[cycle(statements)]
    pub fn add(&mut self, list: &'t [Statement]) -> Result<(), AllocError> {
        for s in list {
            self.add_statement(s)?;
        }
        Ok(())
    }

    #[cycle(statements)]
    fn add_statement(&mut self, statement: &'t Statement) -> Result<(), AllocError> {
        match statement {
            Statement::Compound(list) | Statement::Cycle(list) => self.add(list),
            Statement::If { condition, then } => {
                self.add_expression(condition)?;
                self.add_statement(then)
            }
            Statement::IfElse {
                condition,
                branches,
            } => {
                self.add_expression(condition)?;
                self.add_statement(&branches.0)?;
                self.add_statement(&branches.1)
            }
            Statement::Case { selector, arms } => {
                self.add_expression(selector)?;
                self.add_arms(arms)
            }
            Statement::While { condition, body } => {
                self.add_expression(condition)?;
                self.add_statement(body)
            }
            Statement::Repeat { body, condition } => {
                self.add(body)?;
                self.add_expression(condition)
            }
            Statement::For { header, body } => {
                self.add_expression(&header.from)?;
                self.add_expression(&header.last)?;
                self.add_statement(body)
            }
            _ => self.add_simple(statement),
        }
    }

    #[cycle(statements)]
    fn add_arms(&mut self, arms: &'t [Arm]) -> Result<(), AllocError> {
        for arm in arms {
            self.add_statement(&arm.body)?;
        }
        Ok(())
    }

    // Adds a statement that contains no others.
    fn add_simple(&mut self, statement: &'t Statement) -> Result<(), AllocError> {
        self.statements.push(statement)?;
        match statement {
            Statement::Assign(a) => {
                self.add_designator(&a.target)?;
                self.add_expression(&a.value)
            }
            Statement::Call(c) => {
                self.add_designator(&c.procedure)?;
                self.add_expressions(&c.arguments)
            }
            Statement::Init { items, .. } => {
                for item in items.iter() {
                    self.add_expressions(&item.arguments)?;
                }
                Ok(())
            }
            _ => Ok(()),
        }
    }

    #[cycle(expressions)]
    fn add_expressions(&mut self, list: &'t [Expression]) -> Result<(), AllocError> {
        for e in list {
            self.add_expression(e)?;
        }
        Ok(())
    }

    #[cycle(expressions)]
    fn add_expression(&mut self, expression: &'t Expression) -> Result<(), AllocError> {
        match expression {
            Expression::Number { .. } | Expression::Character { .. } => Ok(()),
            Expression::Designated(d) => self.add_designator(d),
            Expression::Call(d, arguments) => {
                self.add_designator(d)?;
                self.add_expressions(arguments)
            }
            Expression::Parenthesized { inner, .. } => self.add_expression(inner),
            Expression::Not { operand, .. } | Expression::Signed { operand, .. } => {
                self.add_expression(operand)
            }
            Expression::Chain { first, rest } => {
                self.add_expression(first)?;
                self.add_operands(rest)
            }
        }
    }

    #[cycle(expressions)]
    fn add_operands(&mut self, rest: &'t [Operation]) -> Result<(), AllocError> {
        for operation in rest {
            self.add_expression(&operation.operand)?;
        }
        Ok(())
    }

    #[cycle(expressions)]
    fn add_designator(&mut self, designator: &'t Designator) -> Result<(), AllocError> {
        self.designators.push(designator)?;
        for selector in &designator.selectors {
            self.add_selector(selector)?;
        }
        Ok(())
    }

    #[cycle(expressions)]
    fn add_selector(&mut self, selector: &'t Selector) -> Result<(), AllocError> {
        if let Selector::Indexed(indices) = selector {
            for index in indices {
                self.add_expression(&index.value)?;
            }
        }
        Ok(())
    }
}
