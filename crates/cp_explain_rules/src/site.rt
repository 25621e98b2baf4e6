//! What is at a place of a text: the role of a name there, or the purpose of an expression.

use cp_explain_names::scope::Scope;
use cp_explain_names::types::Type;
use cp_model::tree::{Constant, Designator, Expression, Identifier, Operation, Operator, Sort};

/// What a name is declared as.
#[derive(Clone, Copy)]
pub enum Declaring {
    Constant,
    EnumerationValue,
    Type,
    Field,
    /// A variable of a routine.
    RoutineVariable,
    /// A variable that a system type or the initial process declares.
    Variable,
    Parameter,
    Routine,
}

/// Where a type is written.
#[derive(Clone, Copy)]
pub enum TypePlace {
    /// To the right of the `=` of a definition.
    Definition,
    Field,
    Element,
    Index,
    Variable,
    RoutineVariable,
    SystemParameter,
    RoutineParameter,
    Result,
}

/// The role of a name.
#[derive(Clone, Copy)]
pub enum NameRole<'t> {
    Declared(Declaring),
    Type(TypePlace),
    Constant,
    /// A name alone as an expression: a value is wanted.
    Value,
    /// A name alone on the left side of `:=`.
    Target,
    /// The name of a routine that is called with this number of arguments: a function in an
    /// expression, otherwise a procedure.
    Function(usize),
    Procedure(usize),
    /// The first name of a designator that has selectors.
    Root(&'t Designator),
    /// The name after a `.`.
    Member(&'t Designator, Call),
    Counter,
    Component(usize),
}

/// Whether the name after a `.` is called, and with how many arguments.
#[derive(Clone, Copy)]
pub enum Call {
    Function(usize),
    Procedure(usize),
    /// Not called: other selectors follow, or the designator is the left side of `:=`.
    No,
}

/// What an expression is wanted for.
#[derive(Clone, Copy)]
pub enum Purpose<'t> {
    Condition,
    Selector,
    /// A bound of a `for` that counts with this variable.
    Bound(&'t Identifier),
    /// An index, by the number of its selector and its own number there, from 0.
    Index(&'t Designator, usize, usize),
    /// An argument of a routine, by its number from 0.
    Argument(&'t Designator, usize),
    /// An argument of `init`, by its number from 0.
    InitArgument(&'t Identifier, usize),
}

/// The role of an operator, a mark, a word, a written type or a constant. A constant's name has a
/// role as a name too.
#[derive(Clone, Copy)]
pub enum Mark {
    Operator,
    Point,
    Index,
    Becomes,
    Init,
    Entry,
    /// The `var` before a parameter.
    Var,
    /// The `begin` of the initial process.
    InitialBegin,
    /// A written type.
    Type(TypePlace),
    /// The first bound of a subrange, which is a constant as the following ones are.
    FirstBound,
    LastBound,
    Label,
    DefinitionValue,
}

/// Two things at a place whose types have to agree, or the operand of an operator.
#[derive(Clone, Copy)]
pub enum Pair<'t> {
    /// The two sides of an assignment.
    Sides(&'t Designator, &'t Expression),
    /// The first operation of a chain, and its left operand.
    First(&'t Expression, &'t Operation),
    /// A later operation of a chain, and the operator before it.
    Later(Operator, &'t Operation),
    Bounds(&'t Constant, &'t Constant),
    /// The value that a `case` selects by, and a label.
    Label(&'t Expression, &'t Constant),
}

/// The operand of a `not` or a sign, and the type that it should have.
#[derive(Clone, Copy)]
pub struct Operand<'t> {
    pub(crate) expression: &'t Expression,
    pub(crate) wanted: Type<'static>,
}

/// What is at a place. A name that begins an expression has a purpose as well as a role.
#[derive(Drop)]
pub struct Site<'t> {
    pub(crate) scope: Scope<'t>,
    pub(crate) name: Option<(&'t Identifier, NameRole<'t>)>,
    pub(crate) purpose: Option<Purpose<'t>>,
    pub(crate) mark: Option<Mark>,
    /// The outermost expression that begins at the place, if it has a purpose.
    pub(crate) expression: Option<&'t Expression>,
    pub(crate) pair: Option<Pair<'t>>,
    /// The operand, if a `not` or a sign is at the place.
    pub(crate) operand: Option<Operand<'t>>,
    /// Whether a `not` is at the place, and a relation follows its operand.
    pub(crate) is_compared: bool,
    /// The number of the process or monitor that the name declares, if the initial process declares
    /// it.
    pub(crate) number: Option<(Sort, usize)>,
}
