//! Which message fits a broken rule, depending on what is at the place.

use crate::messages as m;
use crate::site::{Declaring, Mark, NameRole, Pair, Purpose, Site, TypePlace};
use cp_explain_names::scope::{Declaration, Kind, Wanted};
use cp_explain_names::types::{BOOLEAN, Type};
use cp_model::rules::Rule;
use cp_model::tree::{Designator, Expression, Identifier, Operator, Sort, System};
use cp_output::message::Message;

/// The largest number of processes, counting the initial one, and of monitors.
const MAX_LABELS: usize = 255;

// The advice if one of two things is an array, a record or a component.
fn advice_on_parts(first: Type<'_>, second: Type<'_>, is_operator: bool) -> Option<&'static str> {
    match (first, second) {
        (Type::System(..), _) | (_, Type::System(..)) => Some(m::COMPONENT_VALUE),
        (Type::Structured(..), _) | (_, Type::Structured(..)) if is_operator => {
            Some(m::PART_OPERANDS)
        }
        (Type::Structured(..), _) | (_, Type::Structured(..)) => Some(m::PART_SIDES),
        _ => None,
    }
}

impl<'t> Site<'t> {
    /// The name at the place.
    pub fn identifier(&self) -> Option<&'t Identifier> {
        let (x, _) = self.name?;
        Some(x)
    }

    pub(crate) fn role(&self) -> Option<NameRole<'t>> {
        let (_, role) = self.name?;
        Some(role)
    }

    // The routine that a name after a component's `.` represents.
    fn member(&self, designator: &Designator, name: &'t Identifier) -> Option<Declaration<'t>> {
        let system = self.scope.system_of(&designator.root)?;
        Wanted::other_than(name).in_routines(&system.routines)
    }

    /// The declaration of the name at the place, other than the place itself.
    pub fn declaration(&self) -> Option<Declaration<'t>> {
        let (x, role) = self.name?;
        match role {
            NameRole::Member(d, _) => self.member(d, x),
            NameRole::Declared(Declaring::Field) => None,
            _ => self.scope.find(Wanted::other_than(x)),
        }
    }

    /// The declaration of a name that isn't visible at the place because the initial process keeps
    /// it for itself.
    pub fn hidden_declaration(&self) -> Option<Declaration<'t>> {
        match self.name? {
            (_, NameRole::Member(..) | NameRole::Declared(_)) => None,
            (x, _) => self.scope.find_hidden(Wanted::other_than(x)),
        }
    }

    pub(crate) fn kind(&self) -> Option<Kind> {
        Some(self.declaration()?.kind)
    }

    pub(crate) fn is_constant(&self) -> bool {
        matches!(self.kind(), Some(Kind::Constant | Kind::EnumerationValue))
    }

    // Whether the name is that of a variable or a parameter, which may be a component.
    pub(crate) fn is_variable(&self) -> bool {
        matches!(
            self.kind(),
            Some(Kind::Variable | Kind::ValueParameter | Kind::VarParameter)
        )
    }

    pub(crate) fn is_component(&self) -> bool {
        match self.identifier() {
            Some(x) => self.is_variable() && self.scope.system_of(x).is_some(),
            None => false,
        }
    }

    /// The message for a rule that is broken at the place.
    pub fn message(&self, rule: Rule) -> Message {
        let Message { head, advice } = self.plain_message(rule);
        let advice = match rule {
            Rule::C2 | Rule::C12 => self.advice_by_types().unwrap_or(advice),
            _ => advice,
        };
        Message { head, advice }
    }

    // Whether the operator at the place is `&` or `or`.
    fn is_logical(&self) -> bool {
        match self.pair {
            Some(Pair::First(_, operation) | Pair::Later(_, operation)) => {
                matches!(operation.operator, Operator::And | Operator::Or)
            }
            _ => false,
        }
    }

    // The advice for two types that don't agree, where they say more than the rule.
    fn advice_by_types(&self) -> Option<&'static str> {
        if self.is_logical() {
            return Some(m::BOOLEAN_OPERANDS);
        }
        let (first, second) = self.types()?;
        let is_operator = matches!(self.pair, Some(Pair::First(..) | Pair::Later(..)));
        let parts = advice_on_parts(first.of, second.of, is_operator);
        if self.pair.is_some() && parts.is_some() {
            return parts;
        }
        if first.of.is(second.of) {
            None
        } else if is_operator {
            let _enumeration = self.enumeration()?;
            Some(m::ENUMERATION_OPERAND)
        } else if first.of.is_enumeration() {
            Some(m::ENUMERATION)
        } else if first.of.is(BOOLEAN) {
            Some(m::BOOLEAN_VALUE)
        } else {
            None
        }
    }

    // The message for a rule, whatever the types are.
    fn plain_message(&self, rule: Rule) -> Message {
        match rule {
            Rule::C1 => self.c1(),
            Rule::C2 => self.c2(),
            Rule::C3 => self.c3(),
            Rule::C4 => m::OWN_DEFINITION,
            Rule::C5 => self.c5(),
            Rule::C6 => self.c6(),
            Rule::C7 => self.c7(),
            Rule::C8 => self.c8(),
            Rule::C9 => self.c9(),
            Rule::C10 => self.c10(),
            Rule::C11 => self.c11(),
            Rule::C12 => self.c12(),
            Rule::C13 => self.c13(),
        }
    }

    // The system type of the component before the `.` before the place.
    fn owner_type(&self) -> Option<&'t System> {
        match self.role()? {
            NameRole::Member(d, _) => self.scope.system_of(&d.root),
            _ => None,
        }
    }

    // The message for a name after a component's `.` that represents no routine.
    fn no_member(&self, name: &Identifier, system: &'t System) -> Message {
        let wanted = Wanted::other_than(name);
        let is_own = wanted.in_groups(&system.variables).is_some()
            || wanted.in_parameters(&system.parameters).is_some();
        match (system.sort, is_own) {
            (Sort::Process, _) => m::PROCESS,
            (_, true) => m::OWN_VARIABLE,
            _ => m::UNKNOWN_MEMBER,
        }
    }

    fn c1(&self) -> Message {
        match (self.role(), self.identifier(), self.owner_type()) {
            (Some(NameRole::Declared(_)), _, _) if self.standard().is_some() => m::STANDARD_TWICE,
            (Some(NameRole::Declared(_)), _, _) => m::TWICE,
            (Some(NameRole::Member(..)), Some(x), Some(system)) => self.no_member(x, system),
            (Some(NameRole::Member(..)), _, _) => m::UNKNOWN_MEMBER,
            _ if self.declaration().is_some() => m::LATER,
            _ if self.hidden_declaration().is_some() => m::HIDDEN,
            _ => m::UNKNOWN,
        }
    }

    fn c3(&self) -> Message {
        match self.mark {
            Some(Mark::Label) => m::LABELS,
            _ => m::BOUNDS,
        }
    }

    fn c5(&self) -> Message {
        match (self.mark, self.role()) {
            (Some(Mark::Entry), _) => m::ENTRY_OF_PROCESS,
            (_, Some(NameRole::Member(..))) if self.is_of_process() => m::PROCESS,
            (_, Some(NameRole::Member(..))) => m::NO_ENTRY,
            _ => m::ENTRY_BY_NAME,
        }
    }

    // Whether the place follows a process and a `.`.
    fn is_of_process(&self) -> bool {
        match self.owner_type() {
            Some(system) => system.sort == Sort::Process,
            None => false,
        }
    }

    fn c6(&self) -> Message {
        match self.role() {
            Some(NameRole::Type(TypePlace::Variable)) => m::OWNER_INSIDE,
            _ => m::COMPONENT_INSIDE,
        }
    }

    fn c7(&self) -> Message {
        match (self.mark, self.role()) {
            (Some(Mark::Var), _) => m::VAR_RIGHT,
            (_, Some(NameRole::Type(TypePlace::RoutineParameter))) => m::ROUTINE_PARAMETER,
            _ if self.kind() == Some(Kind::SystemType(Sort::Process)) => m::PROCESS_RIGHT,
            _ => m::SYSTEM_PARAMETER,
        }
    }

    fn c8(&self) -> Message {
        match (self.mark, self.role()) {
            (Some(Mark::Type(_)), _) | (_, Some(NameRole::Type(_))) => m::QUEUE_PLACE,
            _ => m::QUEUE_NAME,
        }
    }

    fn c9(&self) -> Message {
        match self.identifier() {
            Some(x) if x.name.as_bytes() == b"continue".as_slice() => m::CONTINUE,
            Some(x) if x.name.as_bytes() == b"wait".as_slice() => self.c9_wait(),
            _ => m::DELAY,
        }
    }

    fn c9_wait(&self) -> Message {
        match self.scope.system {
            Some(system) if system.sort == Sort::Monitor => m::WAIT_IN_MONITOR,
            _ => m::WAIT,
        }
    }

    // The component whose part is named at the place.
    fn held_by(&self) -> Option<&'t System> {
        match self.name? {
            (x, NameRole::Root(_)) if self.other().is_some() => self.scope.system_of(x),
            _ => None,
        }
    }

    // Whether the expression at the place is more than a name and its parts, or than a constant.
    fn is_computed(&self) -> bool {
        matches!(
            self.expression,
            Some(
                Expression::Call(..)
                    | Expression::Chain { .. }
                    | Expression::Parenthesized { .. }
                    | Expression::Not { .. }
                    | Expression::Signed { .. }
            )
        )
    }

    fn c10(&self) -> Message {
        match self.held_by() {
            Some(system) if system.sort == Sort::Process => m::PROCESS,
            Some(_) => m::HELD,
            None if self.is_computed() => m::VAR_EXPRESSION,
            None => self.c10_variable(),
        }
    }

    // The message for what is alone where a variable should.
    fn c10_variable(&self) -> Message {
        match (self.identifier(), self.purpose) {
            (None, _) => m::NO_VARIABLE,
            (_, Some(Purpose::Argument(..)))
                if matches!(self.kind(), Some(Kind::Variable | Kind::VarParameter)) => {
                m::ANOTHER_TYPE
            }
            _ => self.unchangeable(),
        }
    }

    // The message for a name that can't be changed.
    fn unchangeable(&self) -> Message {
        match self.kind() {
            Some(Kind::ValueParameter) if self.is_component() => m::RIGHT,
            Some(Kind::ValueParameter) if !self.is_of_procedure() => m::PARAMETER,
            _ => m::UNCHANGEABLE,
        }
    }

    // Whether the name is that of a parameter of a procedure, which may be declared with `var`.
    fn is_of_procedure(&self) -> bool {
        match (self.scope.routine, self.identifier()) {
            (Some(routine), Some(x)) => {
                routine.result_type.is_none()
                    && Wanted::other_than(x)
                        .in_parameters(&routine.parameters)
                        .is_some()
            }
            _ => false,
        }
    }

    fn c11(&self) -> Message {
        match self.mark {
            Some(Mark::Var) => m::VAR_OF_FUNCTION,
            _ => m::RESULT,
        }
    }

    fn c12(&self) -> Message {
        match (self.mark, self.role()) {
            (Some(Mark::Init), _) => m::INIT_IN_ROUTINE,
            (_, Some(NameRole::Component(_))) if self.names_own_component() => m::INIT_ARGUMENTS,
            (_, Some(NameRole::Component(_))) => m::NO_COMPONENT,
            _ => m::INIT_ARGUMENT,
        }
    }

    // Whether the name is that of a component that is declared as a variable here.
    fn names_own_component(&self) -> bool {
        match self.identifier() {
            Some(x) => {
                self.scope.own_variable(Wanted::other_than(x)).is_some() && self.is_component()
            }
            None => false,
        }
    }

    fn c13(&self) -> Message {
        match (self.mark, self.role()) {
            (Some(Mark::InitialBegin), _) => m::INITIAL_SIZE,
            (_, Some(NameRole::Declared(_))) => self.c13_declaration(),
            _ => m::TYPE_SIZE,
        }
    }

    // A process or a monitor is too large, or there are too many of them.
    fn c13_declaration(&self) -> Message {
        match self.number {
            Some((Sort::Process, number)) if MAX_LABELS < number => m::PROCESSES,
            Some((Sort::Monitor, number)) if MAX_LABELS < number => m::MONITORS,
            _ => m::OWNER_SIZE,
        }
    }
}
