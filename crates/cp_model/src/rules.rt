//! What the rules of the language refer to: the rules by number, what a name represents, and the
//! tables of types and routines.
//!
//! A type, a routine, a system type or a parameter is identified by the number of its row in a
//! table, in the order of the text. The rules themselves are defined in `specs/Rules*.antt` and
//! described in docs/language.md, "Rules".

ghost use Rattle.std.specs.Prelude.{◌≡◌};
ghost use Rattle.cp_model.specs.RulesJudged.{number_of};

use crate::tree::Sort;

/// A rule of the language, by its number in refusals.
#[derive(Clone, Copy, Debug, PartialEq, Eq)]
pub enum Rule {
    C1,
    C2,
    C3,
    C4,
    C5,
    C6,
    C7,
    C8,
    C9,
    C10,
    C11,
    C12,
    C13,
}

impl Rule {
    /// The number of the rule, 1 to 13.
    pub const fn number(self) -> u8
        ensures { result ≡ number_of self }
    {
        match self {
            Rule::C1 => 1,
            Rule::C2 => 2,
            Rule::C3 => 3,
            Rule::C4 => 4,
            Rule::C5 => 5,
            Rule::C6 => 6,
            Rule::C7 => 7,
            Rule::C8 => 8,
            Rule::C9 => 9,
            Rule::C10 => 10,
            Rule::C11 => 11,
            Rule::C12 => 12,
            Rule::C13 => 13,
        }
    }
}

/// A violation of a rule at a place of the text.
#[derive(Clone, Copy)]
pub struct Violation {
    pub rule: Rule,
    pub at: usize,
}

/// How a variable may be used.
#[derive(Clone, Copy)]
pub enum Access {
    /// A variable of the component or the routine.
    Own,
    /// A `var` parameter.
    ByReference,
    /// Any other parameter. It may not be changed, and if it names a component it is a right.
    Passive,
}

/// A routine of the language itself, which no text declares.
#[derive(Clone, Copy)]
pub enum Standard {
    Abs,
    Succ,
    Pred,
    Ord,
    Chr,
    Empty,
    Realtime,
    Delay,
    Continue,
    Display,
    Accept,
    Wait,
}

/// What a routine returns.
#[derive(Clone, Copy)]
pub enum Returns {
    /// Nothing: it is a procedure.
    Nothing,
    /// A value of this type.
    Value(usize),
    /// Unknown: it is a function whose result type is broken.
    Broken(Violation),
}

/// A routine: its parameters (`count` rows from row `first`), and the words that it needs together
/// with everything that it calls.
#[derive(Clone, Copy)]
pub struct RoutineRow {
    pub entry: bool,
    pub first: usize,
    pub count: usize,
    pub returns: Returns,
    pub need: usize,
}

/// A parameter. It has no type if its type is broken.
#[derive(Clone, Copy)]
pub struct ParameterRow {
    pub by_reference: bool,
    pub of: Option<usize>,
}

/// A system type: its parameters (`count` rows from row `first`), the words of a component, and
/// what the body of a component needs.
#[derive(Clone, Copy)]
pub struct SystemRow {
    pub sort: Sort,
    pub first: usize,
    pub count: usize,
    pub words: usize,
    pub body_need: usize,
    /// The number of the table of its members, which are its routines.
    pub members: usize,
}

/// What a type is.
#[derive(Clone, Copy)]
pub enum Structure {
    /// The base type, the lower bound and the upper bound. A base type is its own base type.
    Simple(usize, i32, i32),
    /// The index type and the element type.
    Array(usize, usize),
    /// A record type, by the number of its table of members.
    Record(usize),
    Queue,
    /// A system type, by its row.
    System(usize),
}

/// A type, and the number of words of a variable of it, which is at most one above the limit.
#[derive(Clone, Copy)]
pub struct TypeRow {
    pub structure: Structure,
    pub words: usize,
    pub has_queues: bool,
}

/// What a name after a `.` represents.
#[derive(Clone, Copy)]
pub enum Member {
    /// A field of this type.
    Field(usize),
    Routine(usize),
}

/// What a name represents.
#[derive(Clone, Copy)]
pub enum Entity {
    /// The base type and the ordinal.
    Constant(usize, i32),
    Type(usize),
    /// A variable, a parameter, or a part of one. A component is a variable of a system type.
    Variable(usize, Access),
    /// A routine of the component itself.
    Routine(usize),
    /// An entry routine of another component.
    Entry(usize),
    Standard(Standard),
    /// A constant inside its own definition.
    UnfinishedConstant,
    /// A type inside its own definition.
    UnfinishedType,
    /// A routine inside its own definition.
    UnfinishedRoutine(RoutineRow),
    /// A parameter between its own group and the end of its heading, where it isn't visible.
    Hidden,
    /// A name whose declaration is broken.
    Broken(Violation),
}

/// The part of a component that is judged.
#[derive(Clone, Copy)]
pub enum Part {
    Body,
    Routine,
    EntryRoutine,
}

/// Where a statement is: the part of a component of this sort. The initial process is a
/// process.
#[derive(Clone, Copy)]
pub struct Region {
    pub sort: Sort,
    pub part: Part,
}

/// Where a written type is.
#[derive(Clone, Copy)]
pub enum Position {
    Definition,
    Element,
    Field,
    /// A variable of the initial process.
    InitialVariable,
    /// A variable of a monitor type.
    MonitorVariable,
    /// A variable of a process type or a class type.
    ComponentVariable,
    RoutineVariable,
}

/// An array that is indexed.
#[derive(Clone, Copy)]
pub struct ArrayPart {
    pub index: usize,
    pub element: usize,
    pub access: Access,
}

/// A name of a designator, with the indices after it.
#[derive(Clone, Copy)]
pub struct NamedPart {
    /// Whether the name represents a variable, a field or a constant.
    pub is_value: bool,
    /// Whether there are indices after the name.
    pub is_indexed: bool,
    /// The type of the part, whatever the indices are.
    pub of: Option<usize>,
}

/// What is required of an argument.
#[derive(Clone, Copy)]
pub enum Want {
    /// It must agree with this parameter.
    Parameter(ParameterRow),
    /// It must be a simple value.
    Simple,
    /// It must be an integer.
    Integer,
    /// It must be a variable of base type char.
    CharVariable,
    /// It must be a variable of type queue.
    QueueVariable,
}

/// What a call returns.
#[derive(Clone, Copy)]
pub enum Gives {
    Nothing,
    /// A value of this type.
    Value(usize),
    /// A value of the base type of its argument.
    ArgumentBase,
}

/// How the first name of an expression is judged.
#[derive(Clone, Copy)]
pub enum Mode {
    /// As a value.
    Value,
    /// As something that should be a variable, so the rules of a value don't judge its sort.
    Variable,
    /// As the first operand of something that should be a variable: a value, but the rules of a
    /// value don't judge its sort either.
    FirstOperand,
    /// As an argument that may be a queue.
    Queue,
}
