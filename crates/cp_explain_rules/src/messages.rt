//! The messages: one for each way to break a rule of the language. `$` represents the name at the
//! place, and `%` for another one (`Site::other`).

use cp_output::message::Message;

// ---- C1

pub const UNKNOWN: Message = Message {
    head: "`$` is not declared",
    advice: "A name must be declared before it is used. Check its spelling, or declare it.",
};

pub const LATER: Message = Message {
    head: "`$` is declared only after this place",
    advice: "A name must be declared before it is used. Move the declaration of `$` to before this place.",
};

pub const HIDDEN: Message = Message {
    head: "`$` belongs to the initial process",
    advice: "Components share only monitors. Keep `$` in a monitor, and pass the right to it with `init`.",
};

pub const UNKNOWN_MEMBER: Message = Message {
    head: "there is no `$` in what comes before the `.`",
    advice: "A record's `.` is followed by a field of its type, a component's `.` by an entry routine of its type.",
};

pub const TWICE: Message = Message {
    head: "`$` is already declared",
    advice: "Each name is declared once, and no name hides another. Rename one of the two.",
};

pub const STANDARD_TWICE: Message = Message {
    head: "`$` is a standard name, which can't be declared again",
    advice: "No name hides another. Choose another name.",
};

pub const OWN_VARIABLE: Message = Message {
    head: "`$` is `%`'s own",
    advice: "Only the routines of `%` see its variables. Add a function entry that returns the value of `$`, and call that.",
};

pub const HELD: Message = Message {
    head: "`%` belongs to `$`",
    advice: "Only the entry routines of `$` change it: add one, such as `procedure entry set(value: integer)`, and call that.",
};

pub const PROCESS: Message = Message {
    head: "nothing of a process can be called or used by others",
    advice: "Processes meet in monitors: put what both need into a monitor, and hand each the right to it by `init`.",
};

pub const PROCESS_RIGHT: Message = Message {
    head: "a process can't be handed to another component",
    advice: "Nothing of a process can be called. Processes meet in monitors: hand both the right to the same monitor by `init`.",
};

pub const VAR_EXPRESSION: Message = Message {
    head: "an expression can't be passed to a `var` parameter",
    advice: "The routine gives its `var` parameter a value, so pass a variable. To pass only a value, leave `var` out of the heading.",
};

// ---- Advice by types

pub const ENUMERATION: &str =
    "No conversion makes a `%`: use the name of one of its values, or `succ` and `pred` of another.";

pub const ENUMERATION_OPERAND: &str =
    "There is no arithmetic with a `%`, and no conversion makes one: use the name of one of its values, or `succ` and `pred` of another.";

pub const BOOLEAN_OPERANDS: &str =
    "`&` and `or` take Booleans, and bind more tightly than relations: put each relation into parentheses, as in `(a = b) & c`.";

pub const BOOLEAN_VALUE: &str = "A Boolean is `true`, `false`, or a relation such as `n > 0`.";

pub const COMPONENT_VALUE: &str =
    "A component has no value that could be assigned or compared. Call its entry routines.";

pub const PART_OPERANDS: &str =
    "An operator takes simple values: name an element, such as `a[1]`, or a field, such as `r.x`.";

pub const PART_SIDES: &str =
    "Arrays and records agree only if they have the same type, by one name. Otherwise assign an element or a field at a time.";

// ---- C2

pub const NO_CONSTANT: Message = Message {
    head: "`$` is not a constant",
    advice: "A constant is expected here: a number, a character constant, the name of a constant, or a value of an enumeration.",
};

pub const NO_TYPE: Message = Message {
    head: "`$` is not a type",
    advice: "The name of a type is expected here.",
};

pub const NO_VALUE: Message = Message {
    head: "`$` is not a value",
    advice: "A value is expected here: a constant, a variable or the result of a function. Components and procedures have no value.",
};

pub const NO_FUNCTION: Message = Message {
    head: "`$` is not a function",
    advice: "Only functions can be called in an expression.",
};

pub const NO_PROCEDURE: Message = Message {
    head: "`$` is not a procedure",
    advice: "A statement that begins with a name calls a procedure or assigns to a variable. To use the result of a function, call it in an expression.",
};

pub const ARGUMENTS: Message = Message {
    head: "`$` is called with the wrong number of arguments",
    advice: "Each parameter takes one argument. Count the parameters.",
};

pub const BASES: Message = Message {
    head: "the bounds of this subrange have different types",
    advice: "Both bounds must be integers, or both characters, or both values of one enumeration.",
};

pub const OPERANDS: Message = Message {
    head: "the operands don't fit this operator",
    advice: "`+ - * div mod` and signs take integers, `& or not` take Booleans, and relations take two simple values of one type. Convert with `ord` and `chr`.",
};

pub const NOT_FIRST: Message = Message {
    head: "`not` binds first: write `not (a = b)` or `a <> b`",
    advice: "`not` applies to what follows it directly, and that isn't Boolean here. Put the relation into parentheses.",
};

pub const WAIT_ARGUMENTS: Message = Message {
    head: "`$` has no argument: in a monitor, `delay(q)` waits in a queue",
    advice: "`$` waits for the next tick of the clock, in a process. To wait for something in a monitor, declare `var q: queue`.",
};

pub const NO_PARTS: Message = Message {
    head: "what comes before this `.` has no parts",
    advice: "A `.` can only follow a record or a component.",
};

pub const NO_ELEMENTS: Message = Message {
    head: "what comes before this index has no elements",
    advice: "Only an array can be indexed, with at most one index for each of its dimensions.",
};

pub const INDEX: Message = Message {
    head: "this index doesn't have the array's index type",
    advice: "An index must have the base type of the array's index type.",
};

pub const CONDITION: Message = Message {
    head: "this condition isn't Boolean",
    advice: "`if`, `while` and `until` test a Boolean: a relation such as `n > 0`, or a Boolean variable.",
};

pub const SELECTOR: Message = Message {
    head: "`case` can't select by this value",
    advice: "`case` selects by a simple value: an integer, a character, a Boolean or a value of an enumeration.",
};

pub const LABEL: Message = Message {
    head: "this label doesn't have the selector's type",
    advice: "Each label of a `case` must have the base type of the value after `case`.",
};

pub const COUNTER: Message = Message {
    head: "`for` can't count with `$`",
    advice: "The variable of a `for` must be simple: an integer, a character, a Boolean or a value of an enumeration.",
};

pub const BOUND: Message = Message {
    head: "this bound doesn't have the variable's type",
    advice: "Both bounds of a `for` must have the base type of its variable.",
};

pub const INDEX_TYPE: Message = Message {
    head: "this is not an index type",
    advice: "An index type must be simple: a subrange, an enumeration, `char` or `boolean`.",
};

pub const ARGUMENT: Message = Message {
    head: "this argument doesn't agree with the parameter",
    advice: "A simple argument must have the base type of its parameter; an array or a record must have exactly its type.",
};

pub const SIDES: Message = Message {
    head: "the two sides of this assignment don't agree",
    advice: "Simple values agree if they have the same base type, arrays and records only if they have the same type. Convert with `ord` and `chr`.",
};

// ---- C3 to C5

pub const BOUNDS: Message = Message {
    head: "this subrange is empty",
    advice: "The lower bound comes first and can't be above the upper bound.",
};

pub const LABELS: Message = Message {
    head: "this label is used twice",
    advice: "Each value can have only one arm of a `case`. Merge the two arms.",
};

pub const OWN_DEFINITION: Message = Message {
    head: "`$` is used inside its own definition",
    advice: "There is no recursion: a routine can't call itself, and a type can't contain itself. In its own body a function's name can only be on the left of `:=`.",
};

pub const NO_ENTRY: Message = Message {
    head: "`$` is not an entry routine",
    advice: "Other components can call only entry routines. Declare it with `entry`.",
};

pub const ENTRY_BY_NAME: Message = Message {
    head: "`$` is an entry routine of this component",
    advice: "A component can't call its own entry routines. Put what both need into a routine without `entry`.",
};

pub const ENTRY_OF_PROCESS: Message = Message {
    head: "a process can't have entry routines",
    advice: "Nothing can call a process. Let processes share a monitor.",
};

// ---- C6 to C8

pub const COMPONENT_INSIDE: Message = Message {
    head: "a component can't be declared here",
    advice: "Each component needs a variable of its own, so that the text shows which components exist. Declare them one by one.",
};

pub const OWNER_INSIDE: Message = Message {
    head: "only the initial process can declare processes and monitors",
    advice: "Declare it at the end of the text, and pass the right to a monitor with `init`.",
};

pub const VAR_RIGHT: Message = Message {
    head: "a parameter of a system type can't have `var`",
    advice: "Such parameters are values and rights that are passed once. Leave out `var`.",
};

pub const SYSTEM_PARAMETER: Message = Message {
    head: "this can't be passed by `init`",
    advice: "Processes and monitors are given simple values and monitors, classes also classes. Make what processes share a monitor.",
};

pub const ROUTINE_PARAMETER: Message = Message {
    head: "a routine's parameter can't be a component",
    advice: "Parameters of routines are data. Rights are parameters of system types and are passed by `init`.",
};

pub const QUEUE_PLACE: Message = Message {
    head: "a queue can't be declared here",
    advice: "A queue is a variable of a monitor, or an element of an array that is one.",
};

pub const QUEUE_NAME: Message = Message {
    head: "`$` is a queue and can't be used here",
    advice: "A queue can only be the argument of `delay`, `continue` or `empty`.",
};

// ---- C9 to C11

pub const DELAY: Message = Message {
    head: "`$` can't be used here",
    advice: "`delay` and `empty` can only be used in routines of monitors: while a monitor is being initialised, no process could continue the queue.",
};

pub const CONTINUE: Message = Message {
    head: "`continue` can't be used here",
    advice: "`continue` returns from a monitor's entry routine, so it can only be used in the body of one.",
};

pub const WAIT: Message = Message {
    head: "`wait` can't be used here",
    advice: "`wait` can only be used in the bodies and routines of processes.",
};

pub const WAIT_IN_MONITOR: Message = Message {
    head: "`wait` can't be used here: in a monitor, `delay(q)` waits in a queue",
    advice: "`wait` waits for the clock, in the bodies and routines of processes. In a monitor, declare `var q: queue`.",
};

pub const RIGHT: Message = Message {
    head: "`$` is a right, and a right can't be changed",
    advice: "`init` passes the right once. To use another component, pass the right to that one too.",
};

pub const PARAMETER: Message = Message {
    head: "`$` can't be changed: copy it to a variable",
    advice: "This parameter keeps its value. Declare a variable, and begin with `n := $`.",
};

pub const UNCHANGEABLE: Message = Message {
    head: "`$` can't be changed here",
    advice: "Value parameters, constants and function results can't be changed. Copy the value to a variable, or declare the parameter with `var`.",
};

pub const NO_VARIABLE: Message = Message {
    head: "a variable is expected here",
    advice: "Only a variable, a `var` parameter or a part of one can be changed. The result of an expression can't be.",
};

pub const ANOTHER_TYPE: Message = Message {
    head: "`$` doesn't have the `var` parameter's type",
    advice: "The argument of a `var` parameter must be a variable of exactly the same type. Declare both with the same type name.",
};

pub const VAR_OF_FUNCTION: Message = Message {
    head: "a function can't have `var` parameters",
    advice: "Functions are called in expressions, where the effect of a change would depend on the order of evaluation. Make it a procedure.",
};

pub const RESULT: Message = Message {
    head: "`$` can't be a result type",
    advice: "A function returns a simple value. To return an array or a record, use a procedure with a `var` parameter.",
};

// ---- C12 and C13

pub const INIT_IN_ROUTINE: Message = Message {
    head: "`init` can't be used in a routine",
    advice: "Components are connected once, in the body of the component that declares them.",
};

pub const NO_COMPONENT: Message = Message {
    head: "`$` is not a component declared here",
    advice: "`init` takes a component that this component declares as a variable: a process, a monitor or a class.",
};

pub const INIT_ARGUMENTS: Message = Message {
    head: "`$` is initialised with the wrong number of arguments",
    advice: "Each parameter of its type takes one argument.",
};

pub const INIT_ARGUMENT: Message = Message {
    head: "this argument of `init` doesn't agree with the parameter",
    advice: "A simple argument must have the base type of its parameter. A component is passed by its name, and must have the parameter's type.",
};

pub const PROCESSES: Message = Message {
    head: "`$` is one process too many",
    advice: "There can be at most 255 processes, including the initial one.",
};

pub const MONITORS: Message = Message {
    head: "`$` is one monitor too many",
    advice: "There can be at most 255 monitors.",
};

pub const OWNER_SIZE: Message = Message {
    head: "`$` needs too many words",
    advice: "A process or a monitor can have at most 65,536 words, including what its routines need.",
};

pub const TYPE_SIZE: Message = Message {
    head: "this type has too many words",
    advice: "A type can have at most 65,536 words. Use a smaller array.",
};

pub const INITIAL_SIZE: Message = Message {
    head: "the initial process needs too many words",
    advice: "It can have at most 65,536 words, including what its routines need.",
};
