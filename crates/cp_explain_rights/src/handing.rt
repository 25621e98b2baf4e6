//! What the body of a type hands over: the components among the arguments of its `init` items.

use crate::blueprint::{Origin, Right};
use cp_base_names::NameTable;
use cp_model::tree::{Arm, Expression, InitItem, Statement};
use std::alloc::{AllocError, Global};

/// A walk over a body, which collects what it hands over.
#[derive(Drop)]
pub(crate) struct Handing<'n, 't> {
    // The components that names represent.
    names: &'n NameTable<'t, Origin>,
    rights: Vec<Right>,
}

impl<'n, 't> Handing<'n, 't> {
    /// What the statements of a body hand over, in order of the parts that are given it.
    /// Fails only if memory runs out.
    pub fn rights(
        alloc: Global,
        names: &'n NameTable<'t, Origin>,
        body: &[Statement],
    ) -> Result<Vec<Right>, AllocError> {
        let mut handing = Handing {
            names,
            rights: Vec::new(alloc),
        };
        handing.statements(body)?;
        handing.rights.sort_by_key(|right| right.to)?;
        Ok(handing.rights)
    }

    // Where a component comes from that is an argument.
    fn origin(&self, expression: &Expression) -> Option<Origin> {
        match expression {
            Expression::Designated(d) => self.names.find(d.root.name.as_bytes()),
            _ => None,
        }
    }

    fn item(&mut self, item: &InitItem) -> Result<(), AllocError> {
        let Some(Origin::Part(to)) = self.names.find(item.component.name.as_bytes()) else {
            return Ok(());
        };
        let mut parameter: usize = 0;
        for e in &item.arguments {
            if let Some(from) = self.origin(e) {
                self.rights.push(Right {
                    to,
                    parameter,
                    from,
                })?;
            }
            parameter = parameter.saturating_add(1);
        }
        Ok(())
    }

    fn items(&mut self, items: &[InitItem]) -> Result<(), AllocError> {
        for item in items {
            self.item(item)?;
        }
        Ok(())
    }

    #[cycle(statements)]
    fn statements(&mut self, list: &[Statement]) -> Result<(), AllocError> {
        for s in list {
            self.statement(s)?;
        }
        Ok(())
    }

    #[cycle(statements)]
    fn statement(&mut self, statement: &Statement) -> Result<(), AllocError> {
        match statement {
            Statement::Init { items, .. } => self.items(items),
            Statement::Compound(list) | Statement::Cycle(list) => self.statements(list),
            Statement::If { then, .. } => self.statement(then),
            Statement::IfElse { branches, .. } => {
                self.statement(&branches.0)?;
                self.statement(&branches.1)
            }
            Statement::Case { arms, .. } => self.arms(arms),
            Statement::While { body, .. } | Statement::For { body, .. } => self.statement(body),
            Statement::Repeat { body, .. } => self.statements(body),
            _ => Ok(()),
        }
    }

    #[cycle(statements)]
    fn arms(&mut self, arms: &[Arm]) -> Result<(), AllocError> {
        for arm in arms {
            self.statement(&arm.body)?;
        }
        Ok(())
    }
}
