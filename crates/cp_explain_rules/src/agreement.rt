//! The types that don't agree at a place.

use crate::site::{NameRole, Pair, Purpose, Site};
use cp_explain_names::scope::{Declaration, Wanted};
use cp_explain_names::types::{Type, type_of_operation};
use cp_model::tree::{Designator, Expression, Identifier, Parameters, Selector, TypeExpression};
use cp_output::page::Page;

/// The type of one of two things that should agree, and what that thing is called.
#[derive(Clone, Copy)]
pub struct Side<'t> {
    pub(crate) called: &'static str,
    pub(crate) of: Type<'t>,
}

/// The group of parameters to which the one with this number belongs, from 0.
pub fn group_of(groups: &[Parameters], number: usize) -> Option<&Parameters> {
    let mut before: usize = 0;
    for group in groups {
        before = before.saturating_add(group.names.len());
        if number < before {
            return Some(group);
        }
    }
    None
}

/// The first name after the root of a designator.
pub fn first_field(designator: &Designator) -> Option<&Identifier> {
    for selector in &designator.selectors {
        if let Selector::Field { name, .. } = selector {
            return Some(name);
        }
    }
    None
}

fn make_side<'t>(called: &'static str, of: Type<'t>) -> Side<'t> {
    Side { called, of }
}

fn push_side(page: &mut Page, side: Side<'_>) {
    page.text(side.called);
    page.bytes(b": ");
    match (side.of.name(), side.of) {
        (Some(name), _) => page.quoted(name),
        (_, Type::Structured(_, TypeExpression::Array { .. })) => page.bytes(b"an array"),
        _ => page.bytes(b"a record"),
    }
}

// Adds a line with one type.
fn push_one(page: &mut Page, side: Side<'_>) {
    page.bytes(b"  ");
    push_side(page, side);
    page.bytes(b"\n");
}

impl<'t> Site<'t> {
    /// The routine that a call names.
    pub fn callee(&self, designator: &'t Designator) -> Option<Declaration<'t>> {
        match designator.selectors.as_slice() {
            [] => self.scope.find(Wanted::other_than(&designator.root)),
            _ => self.entry(designator),
        }
    }

    // The parameter that an argument is for.
    fn parameter(&self, designator: &'t Designator, number: usize) -> Option<&'t Parameters> {
        group_of(&self.callee(designator)?.routine?.parameters, number)
    }

    fn init_parameter(&self, name: &'t Identifier, number: usize) -> Option<&'t Parameters> {
        group_of(&self.scope.system_of(name)?.parameters, number)
    }

    fn pair_types(&self, pair: Pair<'t>) -> Option<(Side<'t>, Side<'t>)> {
        let scope = self.scope;
        let (first, second) = match pair {
            Pair::Sides(..) | Pair::First(..) | Pair::Later(..) => ("left", "right"),
            Pair::Bounds(..) => ("first", "second"),
            Pair::Label(..) => ("selector", "label"),
        };
        let types = match pair {
            Pair::Sides(d, e) => scope.type_of_designator(d).zip(scope.type_of_expression(e)),
            Pair::First(e, operation) => scope
                .type_of_expression(e)
                .zip(scope.type_of_expression(&operation.operand)),
            Pair::Later(operator, operation) => {
                Some(type_of_operation(operator)).zip(scope.type_of_expression(&operation.operand))
            }
            Pair::Bounds(low, high) => scope
                .type_of_constant(low)
                .zip(scope.type_of_constant(high)),
            Pair::Label(e, c) => scope.type_of_expression(e).zip(scope.type_of_constant(c)),
        };
        let (left, right) = types?;
        Some((make_side(first, left), make_side(second, right)))
    }

    // The type of an index of the array before the selector with this number.
    fn index_type(
        &self,
        designator: &'t Designator,
        selector: usize,
        number: usize,
    ) -> Option<Type<'t>> {
        match self.scope.type_of_front(designator, selector)? {
            Type::Structured(_, TypeExpression::Array { indices, .. }) => {
                self.scope.type_of_written(indices.get(number)?)
            }
            _ => None,
        }
    }

    fn type_of_group(&self, group: Option<&'t Parameters>) -> Option<Type<'t>> {
        self.scope.type_of_name(&group?.of)
    }

    // What is wanted of the expression at the place.
    fn wanted(&self) -> Option<Side<'t>> {
        let (called, of) = match self.purpose? {
            Purpose::Argument(d, number) => {
                ("parameter", self.type_of_group(self.parameter(d, number)))
            }
            Purpose::InitArgument(x, number) => {
                (
                    "parameter",
                    self.type_of_group(self.init_parameter(x, number)),
                )
            }
            Purpose::Index(d, selector, number) => {
                ("index type", self.index_type(d, selector, number))
            }
            Purpose::Bound(x) => ("variable", self.scope.type_of_root(x)),
            Purpose::Condition | Purpose::Selector => return None,
        };
        Some(make_side(called, of?))
    }

    // The expression at the place.
    fn given(&self, called: &'static str) -> Option<Side<'t>> {
        Some(make_side(called, self.scope.type_of_expression(self.expression?)?))
    }

    /// The types of the two things at the place that should agree.
    pub fn types(&self) -> Option<(Side<'t>, Side<'t>)> {
        if let Some(pair) = self.pair {
            return self.pair_types(pair);
        }
        let called = match self.purpose? {
            Purpose::Argument(..) | Purpose::InitArgument(..) => "argument",
            Purpose::Index(..) => "index",
            _ => "bound",
        };
        self.wanted().zip(self.given(called))
    }

    // Whether the place is that of an operator.
    fn has_operands(&self) -> bool {
        matches!(self.pair, Some(Pair::First(..) | Pair::Later(..)))
    }

    // The name of the type of a variable as it is declared, if it is alone and has one.
    fn declared_type(&self, expression: &'t Expression) -> Option<&'t Identifier> {
        match expression {
            Expression::Designated(d) if d.selectors.is_empty() => {
                self.scope.find(Wanted::other_than(&d.root))?.of
            }
            _ => None,
        }
    }

    // The names of the types of a `var` parameter and of its argument, as they are declared.
    fn declared_types(&self) -> Option<(&'t Identifier, &'t Identifier)> {
        let group = match self.purpose? {
            Purpose::Argument(d, number) => self.parameter(d, number)?,
            _ => return None,
        };
        let _at = group.by_reference?;
        Some((&group.of, self.declared_type(self.expression?)?))
    }

    fn push_declared_types(&self, page: &mut Page, parameter: &Identifier, argument: &Identifier) {
        if parameter.name.as_bytes() == argument.name.as_bytes() {
            return;
        }
        page.text("  parameter: ");
        page.name(parameter);
        page.text(", argument: ");
        page.name(argument);
        page.bytes(b"\n");
    }

    // The operand of the `not` or the sign at the place.
    fn operand_side(&self) -> Option<Side<'t>> {
        let operand = self.operand?;
        Some(make_side(
            "operand",
            self.scope.type_of_expression(operand.expression)?,
        ))
    }

    /// Whether the operand of the `not` or the sign at the place has another type than it should.
    pub fn is_operand_wrong(&self) -> bool {
        match (self.operand, self.operand_side()) {
            (Some(operand), Some(side)) => !side.of.is(operand.wanted),
            _ => false,
        }
    }

    fn push_operand(&self, page: &mut Page) {
        if let Some(side) = self.operand_side() {
            push_one(page, side);
        }
    }

    // Adds the type of what a condition or a `case` tests.
    fn push_type(&self, page: &mut Page) {
        if let (Some(Purpose::Condition | Purpose::Selector), Some(side)) = (
            self.purpose,
            self.given("its type"),
        ) {
            push_one(page, side);
        }
    }

    /// Adds a line with the types that don't agree at the place, if they are known.
    pub fn push_types(&self, page: &mut Page) {
        if self.is_operand_wrong() {
            return self.push_operand(page);
        }
        if let Some((parameter, argument)) = self.declared_types() {
            return self.push_declared_types(page, parameter, argument);
        }
        let Some((first, second)) = self.types() else {
            return self.push_type(page);
        };
        if first.of.is(second.of) && !self.has_operands() {
            return;
        }
        page.bytes(b"  ");
        push_side(page, first);
        page.bytes(b", ");
        push_side(page, second);
        page.bytes(b"\n");
    }

    /// The enumeration that one of the two things at the place is of, and the other isn't.
    pub fn enumeration(&self) -> Option<&'t Identifier> {
        let (first, second) = self.types()?;
        match (first.of, second.of) {
            _ if first.of.is(second.of) => None,
            (Type::Enumeration(x), _) => Some(x),
            (_, Type::Enumeration(x)) if self.has_operands() => Some(x),
            _ => None,
        }
    }

    // The entry routine that a designator names after a component's `.`.
    fn entry(&self, designator: &'t Designator) -> Option<Declaration<'t>> {
        let system = self.scope.system_of(&designator.root)?;
        match designator.selectors.as_slice() {
            [Selector::Field { name, .. }] => {
                Wanted::other_than(name).in_routines(&system.routines)
            }
            _ => None,
        }
    }

    /// The second name that a message is about: the component before a `.`, what is named after it,
    /// or an enumeration.
    pub fn other(&self) -> Option<&'t Identifier> {
        match self.name {
            Some((_, NameRole::Root(d))) => first_field(d),
            Some((_, NameRole::Member(d, _))) => Some(&d.root),
            _ => self.enumeration(),
        }
    }
}
