//! The walk over expressions.

use crate::finder::Finder;
use crate::site::{Call, Mark, NameRole, Operand, Pair, Purpose};
use cp_explain_names::types::{BOOLEAN, INTEGER, Type};
use cp_model::tree::{Designator, Expression, Index, Operation, Operator, Selector};

fn is_relation(operator: Operator) -> bool {
    matches!(
        operator,
        Operator::Equal
            | Operator::Unequal
            | Operator::Less
            | Operator::Greater
            | Operator::AtMost
            | Operator::AtLeast
    )
}

impl<'t> Finder<'t> {
    /// Walks over an expression that is wanted for `purpose`.
    pub(crate) fn expression_for(&mut self, expression: &'t Expression, purpose: Purpose<'t>) {
        self.purpose(expression.first_token(), expression, purpose);
        self.expression(expression);
    }

    #[cycle(expressions)]
    pub(crate) fn expression(&mut self, expression: &'t Expression) {
        match expression {
            Expression::Number { .. } | Expression::Character { .. } => {}
            Expression::Designated(d) => self.designator(d, NameRole::Value, Call::Function(0)),
            Expression::Call(d, list) => {
                self.designator(
                    d,
                    NameRole::Function(list.len()),
                    Call::Function(list.len()),
                );
                self.purposes(d, list);
                self.expressions(list);
            }
            Expression::Parenthesized { inner, .. } => self.expression(inner),
            Expression::Not { at, operand } => {
                self.prefix(*at, operand, BOOLEAN);
                self.expression(operand);
            }
            Expression::Signed { at, operand, .. } => {
                self.prefix(*at, operand, INTEGER);
                self.expression(operand);
            }
            Expression::Chain { first, rest } => {
                self.compared(first, rest);
                self.pairs(first, rest);
                self.expression(first);
                self.operations(rest);
            }
        }
    }

    #[cycle(expressions)]
    fn operations(&mut self, rest: &'t [Operation]) {
        for operation in rest {
            self.mark(operation.at, Mark::Operator);
            self.expression(&operation.operand);
        }
    }

    // Records a `not` or a sign, and the type that its operand should have.
    fn prefix(&mut self, at: usize, operand: &'t Expression, wanted: Type<'static>) {
        self.mark(at, Mark::Operator);
        self.operand(
            at,
            Operand {
                expression: operand,
                wanted,
            },
        );
    }

    // Records a `not` whose operand is the left side of a relation.
    fn compared(&mut self, first: &'t Expression, rest: &'t [Operation]) {
        if let (Expression::Not { at, .. }, Some(operation)) = (first, rest.first()) {
            if *at == self.at && is_relation(operation.operator) {
                self.site.is_compared = true;
            }
        }
    }

    // Records the operands of each operator of a chain.
    fn pairs(&mut self, first: &'t Expression, rest: &'t [Operation]) {
        let mut last = None;
        for operation in rest {
            let pair = match last {
                None => Pair::First(first, operation),
                Some(operator) => Pair::Later(operator, operation),
            };
            self.pair(operation.at, pair);
            last = Some(operation.operator);
        }
    }

    // Records what each argument is wanted for.
    pub(crate) fn purposes(&mut self, designator: &'t Designator, list: &'t [Expression]) {
        for number in 0..list.len() {
            let e = &list[number];
            self.purpose(e.first_token(), e, Purpose::Argument(designator, number));
        }
    }

    #[cycle(expressions)]
    pub(crate) fn expressions(&mut self, list: &'t [Expression]) {
        for e in list {
            self.expression(e);
        }
    }

    /// Walks over a designator. If its first name is alone, it has the role `alone`. A name
    /// after its last `.` is called as `call` says.
    #[cycle(expressions)]
    pub(crate) fn designator(
        &mut self,
        designator: &'t Designator,
        alone: NameRole<'t>,
        call: Call,
    ) {
        self.names(designator, alone, call);
        self.index_purposes(designator);
        self.selectors(&designator.selectors);
    }

    fn names(&mut self, designator: &'t Designator, alone: NameRole<'t>, call: Call) {
        match designator.selectors.as_slice() {
            [] => self.name(&designator.root, alone),
            _ => self.name(&designator.root, NameRole::Root(designator)),
        }
        for number in 0..designator.selectors.len() {
            let call = if number + 1 == designator.selectors.len() {
                call
            } else {
                Call::No
            };
            self.member(designator, &designator.selectors[number], call);
        }
    }

    fn member(&mut self, designator: &'t Designator, selector: &'t Selector, call: Call) {
        if let Selector::Field { at, name } = selector {
            self.mark(*at, Mark::Point);
            self.name(name, NameRole::Member(designator, call));
        }
    }

    // Records what each index is wanted for.
    fn index_purposes(&mut self, designator: &'t Designator) {
        for number in 0..designator.selectors.len() {
            if let Selector::Indexed(indices) = &designator.selectors[number] {
                self.purposes_of(designator, number, indices);
            }
        }
    }

    fn purposes_of(&mut self, designator: &'t Designator, selector: usize, indices: &'t [Index]) {
        for number in 0..indices.len() {
            let e = &indices[number].value;
            self.purpose(
                e.first_token(),
                e,
                Purpose::Index(designator, selector, number),
            );
        }
    }

    #[cycle(expressions)]
    fn selectors(&mut self, selectors: &'t [Selector]) {
        for selector in selectors {
            self.index_part(selector);
        }
    }

    #[cycle(expressions)]
    fn index_part(&mut self, selector: &'t Selector) {
        if let Selector::Indexed(indices) = selector {
            self.indices(indices);
        }
    }

    #[cycle(expressions)]
    fn indices(&mut self, indices: &'t [Index]) {
        for index in indices {
            self.mark(index.at, Mark::Index);
            self.expression(&index.value);
        }
    }
}
