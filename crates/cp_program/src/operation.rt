//! Operations. Each is one step and holds the place to which it leads. A place is an index into the
//! program's operations.

ghost use Rattle.std.specs.Prelude.{◌≡◌};
ghost use Rattle.cp_model_program.specs.Programs as code;
ghost use Rattle.cp_model_program.specs.Terms as terms;
ghost use Rattle.cp_program.specs.View as view;

use crate::arms::Arms;
use crate::bounds::Bounds;
use crate::element::Element;
use crate::term::{PlaceExpression, Root, Term};

/// The component whose routine is called.
#[derive(Clone, Copy)]
pub enum Target {
    /// The running component itself.
    Own,
    /// A class component that is a variable of the running component, at this offset in words.
    Class(u32),
    /// A class component, the right to which is in this word of the running component.
    ClassRight(u32),
    /// The monitor with this number.
    Monitor(u32),
    /// The monitor whose number is in this word of the running component.
    MonitorRight(u32),
}

/// What is passed to the parameter that is `at` words from the first word of the new activation.
#[derive(Drop)]
pub enum Argument {
    /// A value, which must be within the bounds.
    Value {
        at: u32,
        bounds: Bounds,
        term: Term,
    },
    /// A copy of `size` words.
    Copy {
        at: u32,
        size: u32,
        from: PlaceExpression,
    },
    Reference {
        at: u32,
        to: PlaceExpression,
    },
    Right {
        at: u32,
        of: Target,
    },
}

/// A call of a unit. The new activation begins `words` words after the caller's first word, and the
/// arguments are put there. Its temps begin after the first `temps` temps of the caller.
#[derive(Drop)]
pub struct Call {
    /// The number of the called unit.
    pub routine: u32,
    pub target: Target,
    pub arguments: Vec<Argument>,
    pub words: u32,
    pub temps: u32,
}

/// Where a `case` leads: the place of each number from the lowest label on, or the place of each
/// label.
#[derive(Drop)]
pub enum Table {
    Dense { low: i32, places: Vec<Option<u32>> },
    Sparse(Arms),
}

/// A `for` statement. The temp with the number `temp` holds the counter, and the next temp the last
/// value.
#[derive(Clone, Copy)]
pub struct Counting {
    pub variable: Root,
    pub bounds: Bounds,
    pub down: bool,
    pub temp: u32,
    pub body: u32,
    pub next: u32,
}

/// The bounds of the variable that an assignment writes, and where the assignment leads.
#[derive(Clone, Copy)]
pub struct Assignment {
    pub bounds: Bounds,
    pub next: u32,
}

/// What is done with a value.
#[derive(Drop)]
pub enum Then {
    Set {
        to: PlaceExpression,
        assignment: Assignment,
    },
    /// Sets a word of the activation.
    SetLocal {
        at: u32,
        assignment: Assignment,
    },
    /// Sets a word of the component.
    SetMember {
        at: u32,
        assignment: Assignment,
    },
    /// Sets an element whose place needs no loop.
    SetElement {
        to: Element,
        assignment: Assignment,
    },
    /// Sets the result of the running function.
    SetResult(Assignment),
    /// Leads to `yes` if the value is 1, or else to `no`.
    Test {
        yes: u32,
        no: u32,
    },
}

/// The work of one step. Bounds are those of the type of the variable that is written.
#[derive(Drop)]
pub enum Operation {
    /// Evaluates a term. All assignments and tests are one case, so that the loop over steps has the
    /// evaluation in registers, which is long, only once.
    Evaluate {
        value: Term,
        then: Then,
    },
    CopyWords {
        to: PlaceExpression,
        from: PlaceExpression,
        size: u32,
        next: u32,
    },
    Case {
        value: Term,
        table: Table,
    },
    For {
        counting: Counting,
        first: Term,
        last: Term,
    },
    ForNext(Counting),
    Cycle {
        body: u32,
    },
    Procedure {
        call: Call,
        next: u32,
    },
    /// Calls a function and puts its value into the temp `into`.
    Function {
        call: Call,
        into: u32,
        next: u32,
    },
    Return {
        function: bool,
    },
    InitClass {
        call: Call,
        next: u32,
    },
    InitMonitor {
        call: Call,
        next: u32,
    },
    InitProcess {
        process: u32,
        arguments: Vec<Argument>,
        words: u32,
        next: u32,
    },
    EndBody,
    End,
    Display {
        value: Term,
        as_byte: bool,
        next: u32,
    },
    Accept {
        to: PlaceExpression,
        bounds: Bounds,
        next: u32,
    },
    Delay {
        queue: PlaceExpression,
        next: u32,
    },
    Continue {
        queue: PlaceExpression,
        function: bool,
    },
    Wait {
        next: u32,
    },
}

impl Operation {
    /// The assignment to a variable. One to a whole variable of the activation or of the component,
    /// or to an element whose place needs no loop, has a form of its own, since most are.
    pub fn set(to: PlaceExpression, value: Term, bounds: Bounds, next: u32) -> Operation
        ensures { view.operation result ≡ code.Set (view.place_expression to) bounds.low
            bounds.high (view.term value) next }
    {
        Operation::Evaluate {
            value,
            then: Then::set(to, Assignment { bounds, next }),
        }
    }

    /// The assignment to the result of the running function.
    pub fn set_result(value: Term, bounds: Bounds, next: u32) -> Operation
        ensures { view.operation result ≡ code.SetResult bounds.low bounds.high
            (view.term value) next }
    {
        Operation::Evaluate {
            value,
            then: Then::SetResult(Assignment { bounds, next }),
        }
    }

    /// A test, which leads to `yes` or `no`.
    pub fn test(value: Term, yes: u32, no: u32) -> Operation
        ensures { view.operation result ≡ code.Test (view.term value) yes no }
    {
        Operation::Evaluate {
            value,
            then: Then::Test { yes, no },
        }
    }
}

impl Then {
    fn set(to: PlaceExpression, assignment: Assignment) -> Then
        ensures { (value : terms.Term) → view.evaluation value result
            ≡ view.assignment (view.place_expression to) value assignment }
    {
        if let Some(element) = to.as_element() {
            return Then::SetElement {
                to: element,
                assignment,
            };
        }
        match (to.root, to.indices.is_empty()) {
            (Root::Local(at), true) => Then::SetLocal { at, assignment },
            (Root::Member(at), true) => Then::SetMember { at, assignment },
            _ => Then::Set { to, assignment },
        }
    }
}
