//! The syntax tree of a text, with the place of each token that a rule of the language names.
//!
//! A place is the first byte of a token, counted from 0. What the grammar repeats is a `Vec`, so a
//! tree is never deeper than the limit of nesting. `specs/Grammar*.antt` defines which tokens it is
//! read from, over the plain data that `specs/View.antt` makes of it. Where a `Drop` is written
//! out, a derived one would cost proofs more (docs/CI.md).

use crate::token::Name;

/// A name at a place of the text.
#[derive(Drop)]
pub struct Identifier {
    pub name: Name,
    pub at: usize,
}

/// A constant as it is written: in a definition, a subrange or a label.
#[derive(Drop)]
pub enum Constant {
    Number { at: usize, value: u16 },
    /// A number after a `-`. The place is that of the `-`.
    Negative { at: usize, value: u16 },
    Character { at: usize, ordinal: u8 },
    Named(Identifier),
}

/// A type as it is written. Enumerations and system types occur only in definitions, each with its
/// own name. Most types are a name, so bounds and lists are boxed: a type then takes 32 bytes.
#[cycle(types)]
pub enum TypeExpression {
    Named(Identifier),
    Subrange(Box<(Constant, Constant)>),
    /// There is at least one index type. `array [a, b] of t` means `array [a] of array [b] of t`.
    Array {
        at: usize,
        indices: Box<Vec<TypeExpression>>,
        element: Box<TypeExpression>,
    },
    Record {
        at: usize,
        groups: Box<Vec<Fields>>,
    },
}

impl Drop for TypeExpression {
    #[cycle(types)]
    fn drop(self) {
        match self {
            TypeExpression::Named(_)
            | TypeExpression::Subrange(_)
            | TypeExpression::Array {
                at: _,
                indices: _,
                element: _,
            }
            | TypeExpression::Record { at: _, groups: _ } => {}
        }
    }
}

/// Fields of one type, or variables of one type.
#[cycle(types)]
#[derive(Drop)]
pub struct Fields {
    pub names: Vec<Identifier>,
    pub of: TypeExpression,
}

/// An operator between two operands.
#[derive(Clone, Copy)]
pub enum Operator {
    Equal,
    Unequal,
    Less,
    Greater,
    AtMost,
    AtLeast,
    Add,
    Subtract,
    Or,
    Multiply,
    Divide,
    Modulo,
    And,
}

/// A sign before a term.
#[derive(Clone, Copy)]
pub enum Sign {
    Plus,
    Minus,
}

/// An expression.
#[cycle(expressions)]
pub enum Expression {
    Number {
        at: usize,
        value: u16,
    },
    Character {
        at: usize,
        ordinal: u8,
    },
    /// A constant, a variable or a part of one, or a function called without arguments.
    Designated(Designator),
    /// A function called with at least one argument.
    Call(Box<Designator>, Vec<Expression>),
    Parenthesized {
        at: usize,
        inner: Box<Expression>,
    },
    Not {
        at: usize,
        operand: Box<Expression>,
    },
    Signed {
        sign: Sign,
        at: usize,
        operand: Box<Expression>,
    },
    /// Operands with operators between them, which group to the left: a chain of `*` and its like,
    /// a chain of `+` and its like, or one relation.
    Chain {
        first: Box<Expression>,
        rest: Vec<Operation>,
    },
}

impl Drop for Expression {
    #[cycle(expressions)]
    fn drop(self) {
        match self {
            Expression::Number { at: _, value: _ }
            | Expression::Character { at: _, ordinal: _ }
            | Expression::Designated(_)
            | Expression::Call(_, _)
            | Expression::Parenthesized { at: _, inner: _ }
            | Expression::Not { at: _, operand: _ }
            | Expression::Signed {
                sign: _,
                at: _,
                operand: _,
            }
            | Expression::Chain { first: _, rest: _ } => {}
        }
    }
}

/// An operator, its place, and its right operand.
#[cycle(expressions)]
#[derive(Drop)]
pub struct Operation {
    pub operator: Operator,
    pub at: usize,
    pub operand: Expression,
}

/// A name, followed by the selectors that pick a part of what it names.
#[cycle(expressions)]
#[derive(Drop)]
pub struct Designator {
    pub root: Identifier,
    pub selectors: Vec<Selector>,
}

/// A selector. The place of a field is that of the `.`.
#[cycle(expressions)]
#[derive(Drop)]
pub enum Selector {
    Field { at: usize, name: Identifier },
    /// At least one index between `[` and `]`. `v[i, j]` means `v[i][j]`.
    Indexed(Vec<Index>),
}

/// An index. Its place is that of the `[` or the `,` before it.
#[cycle(expressions)]
#[derive(Drop)]
pub struct Index {
    pub at: usize,
    pub value: Expression,
}

/// The direction in which the variable of a `for` counts.
#[derive(Clone, Copy)]
pub enum Direction {
    Up,
    Down,
}

/// A value that is assigned. The place is that of the `:=`.
#[derive(Drop)]
pub struct Assignment {
    pub target: Designator,
    pub at: usize,
    pub value: Expression,
}

/// What is between the words `for` and `do`.
#[derive(Drop)]
pub struct ForHeader {
    pub variable: Identifier,
    pub from: Expression,
    pub direction: Direction,
    pub last: Expression,
}

/// A call of a procedure, with or without arguments.
#[derive(Drop)]
pub struct ProcedureCall {
    pub procedure: Designator,
    pub arguments: Vec<Expression>,
}

/// A statement. Its parts and lists are boxed, so that it takes 24 bytes. An empty statement takes
/// as much as any other, and a text can have a million of them.
#[cycle(statements)]
pub enum Statement {
    Empty,
    Assign(Box<Assignment>),
    Call(Box<ProcedureCall>),
    Compound(Box<Vec<Statement>>),
    If {
        condition: Box<Expression>,
        then: Box<Statement>,
    },
    IfElse {
        condition: Box<Expression>,
        /// The statement after `then`, and the one after `else`.
        branches: Box<(Statement, Statement)>,
    },
    Case {
        selector: Box<Expression>,
        arms: Box<Vec<Arm>>,
    },
    While {
        condition: Box<Expression>,
        body: Box<Statement>,
    },
    Repeat {
        body: Box<Vec<Statement>>,
        condition: Box<Expression>,
    },
    For {
        header: Box<ForHeader>,
        body: Box<Statement>,
    },
    Cycle(Box<Vec<Statement>>),
    /// The place is that of the word `init`. There is at least one item.
    Init {
        at: usize,
        items: Box<Vec<InitItem>>,
    },
}

impl Drop for Statement {
    #[cycle(statements)]
    fn drop(self) {
        match self {
            Statement::Empty
            | Statement::Assign(_)
            | Statement::Call(_)
            | Statement::Compound(_)
            | Statement::If {
                condition: _,
                then: _,
            }
            | Statement::IfElse {
                condition: _,
                branches: _,
            }
            | Statement::Case {
                selector: _,
                arms: _,
            }
            | Statement::While {
                condition: _,
                body: _,
            }
            | Statement::Repeat {
                body: _,
                condition: _,
            }
            | Statement::For { header: _, body: _ }
            | Statement::Cycle(_)
            | Statement::Init { at: _, items: _ } => {}
        }
    }
}

/// One labelled statement of a `case`. There is at least one label.
#[cycle(statements)]
#[derive(Drop)]
pub struct Arm {
    pub labels: Vec<Constant>,
    pub body: Statement,
}

/// A component that an `init` names, with or without arguments.
#[derive(Drop)]
pub struct InitItem {
    pub component: Identifier,
    pub arguments: Vec<Expression>,
}

/// The statements between a `begin` and its `end`. The place is that of the `begin`.
#[derive(Drop)]
pub struct Body {
    pub at: usize,
    pub statements: Vec<Statement>,
}

/// Parameters of one type.
#[derive(Drop)]
pub struct Parameters {
    /// The place of the word `var`, if it is before them.
    pub by_reference: Option<usize>,
    pub names: Vec<Identifier>,
    pub of: Identifier,
}

/// A procedure or a function.
#[derive(Drop)]
pub struct Routine {
    /// The place of the word `entry`, if there is one.
    pub entry: Option<usize>,
    pub name: Identifier,
    pub parameters: Vec<Parameters>,
    /// The type of the result, if the routine is a function.
    pub result_type: Option<Identifier>,
    pub variables: Vec<Fields>,
    pub body: Body,
}

/// The kind of component that a system type declares.
#[derive(Clone, Copy, PartialEq, Eq)]
pub enum Sort {
    Process,
    Monitor,
    Class,
}

/// A system type.
#[derive(Drop)]
pub struct System {
    pub sort: Sort,
    pub parameters: Vec<Parameters>,
    pub variables: Vec<Fields>,
    pub routines: Vec<Routine>,
    pub body: Body,
}

/// What a type definition gives a name to.
#[derive(Drop)]
pub enum Defined {
    Written(TypeExpression),
    Enumeration(Vec<Identifier>),
    System(System),
}

/// The definition of a constant.
#[derive(Drop)]
pub struct ConstantDefinition {
    pub name: Identifier,
    pub value: Constant,
}

/// The definition of a type.
#[derive(Drop)]
pub struct TypeDefinition {
    pub name: Identifier,
    pub defined: Defined,
}

/// The definitions after one word `const` or `type`. There is at least one.
#[derive(Drop)]
pub enum Section {
    Constants(Vec<ConstantDefinition>),
    Types(Vec<TypeDefinition>),
}

/// The syntax tree of a text. Its variables, routines and body are those of the initial process.
pub struct Tree {
    pub sections: Vec<Section>,
    pub variables: Vec<Fields>,
    pub routines: Vec<Routine>,
    pub body: Body,
}

impl Drop for Tree {
    fn drop(self) {
        let Tree {
            sections: _,
            variables: _,
            routines: _,
            body: _,
        } = self;
    }
}
