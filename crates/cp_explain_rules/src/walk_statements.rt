//! The walk over statements.

use crate::finder::Finder;
use crate::site::{Call, Mark, NameRole, Pair, Purpose};
use crate::walk_declarations::constant_place;
use cp_model::tree::{Arm, Constant, Designator, Expression, InitItem, Statement};

impl<'t> Finder<'t> {
    #[cycle(statements)]
    pub(crate) fn statements(&mut self, list: &'t [Statement]) {
        for s in list {
            self.statement(s);
        }
    }

    #[cycle(statements)]
    fn statement(&mut self, statement: &'t Statement) {
        match statement {
            Statement::Empty => {}
            Statement::Assign(a) => {
                self.designator(&a.target, NameRole::Target, Call::No);
                self.mark(a.at, Mark::Becomes);
                self.pair(a.at, Pair::Sides(&a.target, &a.value));
                self.expression(&a.value);
            }
            Statement::Call(c) => self.procedure_call(&c.procedure, &c.arguments),
            Statement::Compound(list) | Statement::Cycle(list) => self.statements(list),
            Statement::Init { at, items } => {
                self.mark(*at, Mark::Init);
                self.items(items);
            }
            Statement::For { header, body } => {
                let variable = &header.variable;
                self.name(variable, NameRole::Counter);
                self.expression_for(&header.from, Purpose::Bound(variable));
                self.expression_for(&header.last, Purpose::Bound(variable));
                self.statement(body);
            }
            _ => self.control_statement(statement),
        }
    }

    fn procedure_call(&mut self, designator: &'t Designator, list: &'t [Expression]) {
        self.designator(
            designator,
            NameRole::Procedure(list.len()),
            Call::Procedure(list.len()),
        );
        self.purposes(designator, list);
        self.expressions(list);
    }

    // Walks over a statement that tests a value.
    #[cycle(statements)]
    fn control_statement(&mut self, statement: &'t Statement) {
        match statement {
            Statement::If { condition, then } => {
                self.expression_for(condition, Purpose::Condition);
                self.statement(then);
            }
            Statement::IfElse {
                condition,
                branches,
            } => {
                self.expression_for(condition, Purpose::Condition);
                self.statement(&branches.0);
                self.statement(&branches.1);
            }
            Statement::Case { selector, arms } => {
                self.expression_for(selector, Purpose::Selector);
                self.selected(selector, arms);
                self.arms(arms);
            }
            Statement::While { condition, body } => {
                self.expression_for(condition, Purpose::Condition);
                self.statement(body);
            }
            Statement::Repeat { body, condition } => {
                self.statements(body);
                self.expression_for(condition, Purpose::Condition);
            }
            _ => {}
        }
    }

    #[cycle(statements)]
    fn arms(&mut self, arms: &'t [Arm]) {
        for arm in arms {
            self.labels(&arm.labels);
            self.statement(&arm.body);
        }
    }

    fn labels(&mut self, labels: &'t [Constant]) {
        for label in labels {
            self.constant(label, Mark::Label);
        }
    }

    // Records by what the labels of a `case` are selected.
    fn selected(&mut self, selector: &'t Expression, arms: &'t [Arm]) {
        for arm in arms {
            self.selected_labels(selector, &arm.labels);
        }
    }

    fn selected_labels(&mut self, selector: &'t Expression, labels: &'t [Constant]) {
        for label in labels {
            self.pair(constant_place(label), Pair::Label(selector, label));
        }
    }

    fn items(&mut self, items: &'t [InitItem]) {
        for item in items {
            self.name(&item.component, NameRole::Component(item.arguments.len()));
            self.init_arguments(item);
        }
    }

    fn init_arguments(&mut self, item: &'t InitItem) {
        for number in 0..item.arguments.len() {
            self.expression_for(
                &item.arguments[number],
                Purpose::InitArgument(&item.component, number),
            );
        }
    }
}
