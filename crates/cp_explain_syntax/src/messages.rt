//! Messages about habits of other languages. Each follows ``unexpected `=`: ``.

use cp_output::message::Message;

// ---- Y1: marks

pub const ASSIGN: Message = Message {
    head: "an assignment is written `:=`",
    advice: "`=` compares two values. To give a variable a value, write `:=`.",
};

pub const EQUALITY: Message = Message {
    head: "equality is tested by `=`",
    advice: "`:=` gives a variable a value. A condition compares by `=`.",
};

pub const DEFINITION: Message = Message {
    head: "a definition is written with `=`",
    advice: "Write `const n = 3` or `type t = 1..3`. If a statement was meant, an `end` before it closes too much.",
};

pub const DECLARATION: Message = Message {
    head: "a variable is declared with `:` and its type",
    advice: "Write `var n: integer`, and give it its first value in the body: `n := 0`.",
};

pub const ONE_ASSIGNMENT: Message = Message {
    head: "an assignment has one `:=`",
    advice: "Assign to one variable at a time: `a := 0; b := 0`.",
};

pub const PARENTHESES: Message = Message {
    head: "each relation needs parentheses",
    advice: "`&` and `or` bind more tightly than relations: write `(a = 1) or (b = 2)`.",
};

pub const ONE_MARK: Message = Message {
    head: "this mark is written without a blank inside",
    advice: "`:=`, `<=`, `>=` and `<>` are one mark each.",
};

pub const DOUBLE_EQUAL: Message = Message {
    head: "equality is tested by a single `=`",
    advice: "Write `a = b`.",
};

pub const EQUAL_LAST: Message = Message {
    head: "the `=` of `<=` and `>=` is written last",
    advice: "Write `a <= b` or `a >= b`.",
};

pub const DOUBLE_AMPERSAND: Message = Message {
    head: "`and` is written with a single `&`",
    advice: "Write `a & b`, and put relations into parentheses: `(a > 0) & (b > 0)`.",
};

pub const INCREMENT: Message = Message {
    head: "a variable is changed by an assignment",
    advice: "Write `n := n + 1`.",
};

pub const SIGN: Message = Message {
    head: "a sign comes only before a whole expression",
    advice: "Put what has the sign into parentheses: `a * (-1)`.",
};

pub const NO_ARGUMENTS: Message = Message {
    head: "a call without arguments has no parentheses",
    advice: "Leave out `()`.",
};

pub const LAST_SEMICOLON: Message = Message {
    head: "a `)` follows no `;`",
    advice: "`;` separates groups of parameters. Leave out the last one.",
};

pub const ELEMENT: Message = Message {
    head: "`init` takes the name of a component",
    advice: "There are no arrays of components. Declare each in a variable of its own, and name it here.",
};

pub const REAL: Message = Message {
    head: "there are no reals",
    advice: "Numbers are integers from -32768 to 32767. Count in smaller units, such as hundredths.",
};

pub const RESULT_TYPE: Message = Message {
    head: "a function has a result type",
    advice: "Write `function f(n: integer): integer;`, or make it a procedure.",
};

pub const ENDED: Message = Message {
    head: "the text has ended before it",
    advice: "The `end` before this place closes the whole text, so there is an `end` too many, or a `begin` is missing. Only `.` follows the last `end`.",
};

pub const PAST_DOT: Message = Message {
    head: "the text has ended before it",
    advice: "Only the last `end` of a text is followed by `.`. Write `;` after the one before this place, or leave out what follows.",
};

pub const LAST_DOT: Message = Message {
    head: "the last `end` is followed by `.`",
    advice: "Write `end.`, without a `;`.",
};

pub const QUOTES: Message = Message {
    head: "text between quotes is a comment",
    advice: "A value is expected here, and a comment has none. A character is written 'a', and there are no strings.",
};

pub const CASE_SEMICOLON: Message = Message {
    head: "the `end` of a `case` follows no `;`",
    advice: "After a `;` comes another arm. Leave out the last one.",
};

pub const RECORD_SEMICOLON: Message = Message {
    head: "the `end` of a record follows no `;`",
    advice: "After a `;` come more fields. Leave out the last one.",
};

pub const RESULT: Message = Message {
    head: "there is no `return`",
    advice: "A function's result is what was assigned to its name last: `f := n + 1`.",
};

pub const BRACKETS: Message = Message {
    head: "an element of an array is written with `[` and `]`",
    advice: "Write `a[1] := 3`. Parentheses hold the arguments of a call.",
};

pub const ARROW: Message = Message {
    head: "a part is named after a `.`",
    advice: "Write `a.e` for the entry routine `e` of `a`, or the field `e` of a record.",
};

pub const PARAMETER_TYPE: Message = Message {
    head: "a parameter is declared with `:` and its type",
    advice: "Write `procedure p(a, b: integer; c: char)`.",
};

pub const INIT_LIST: Message = Message {
    head: "`init` has no parentheses of its own",
    advice: "Write `init a, b(a)`: the names of components, each followed by its arguments.",
};

pub const ENUMERATION: Message = Message {
    head: "the values of an enumeration are in parentheses",
    advice: "Write `type color = (red, green)`.",
};

pub const SEPARATOR: Message = Message {
    head: "a `;` is needed here",
    advice: "Definitions, declarations, groups of parameters and statements are separated by `;`; names, arguments and indices by `,`.",
};

pub const INDEX_RANGE: Message = Message {
    head: "an index type has two bounds",
    advice: "Write `array [1..10] of integer`, or name a subrange or an enumeration.",
};

pub const INNER_DOT: Message = Message {
    head: "only the last `end` of a text is followed by `.`",
    advice: "A routine and a component end with `end;`.",
};

pub const POWER: Message = Message {
    head: "there is no power: multiply, as in `n * n`",
    advice: "For a power that varies, multiply in a `for` loop.",
};

pub const BOUND: Message = Message {
    head: "a bound is a constant, not an expression: define `const last = 9`",
    advice: "Work out the value and give it a name: `const last = 9`, and then `array [0..last]`.",
};

pub const CONSTANT: Message = Message {
    head: "a constant is not an expression: write its value",
    advice: "A constant is a number, a character, or the name of a constant, such as `const last = 9`.",
};

pub const LABEL_COLON: Message = Message {
    head: "a label is followed by `:`",
    advice: "Write `case c of red: s; green: t end`.",
};

pub const LABEL_RANGE: Message = Message {
    head: "labels are listed one by one: `1, 2, 3: s`",
    advice: "There is no range of labels. Test a long range with an `if` before the `case`.",
};

pub const ARRAY_TYPE: Message = Message {
    head: "an array type is written `array [1..10] of %`",
    advice: "The bounds follow the word `array`, and the type of the elements follows `of`.",
};

pub const FIRST_VALUE: Message = Message {
    head: "a declaration gives no value: write `x := 0` in the body",
    advice: "A variable gets its first value from a statement after `begin`.",
};

pub const PARAMETER_TYPE_NAME: Message = Message {
    head: "the type of a parameter or result is a name: define `type t = ..` first",
    advice: "Write `type t = array [1..9] of char` at the head of the program, and `procedure p(a: t)` here.",
};

pub const NAME_BEFORE_TYPE: Message = Message {
    head: "the name comes before its type: `$: %`",
    advice: "Write `procedure p(a, b: integer; c: char)` and `var n: integer`.",
};

pub const REPEAT_UNTIL: Message = Message {
    head: "a `repeat` ends with `until` and the opposite condition",
    advice: "Write `repeat s until not c` for `repeat s while c`.",
};

pub const DO_LOOP: Message = Message {
    head: "a loop that tests last is written `repeat s until c`",
    advice: "`do` only follows the head of a `while` or `for`.",
};

// ---- Y1: words

pub const AND: Message = Message {
    head: "`and` is written `&`",
    advice: "Put relations into parentheses: `(a > 0) & (b > 0)`.",
};

pub const ELSE_SEMICOLON: Message = Message {
    head: "an `else` follows no `;`",
    advice: "`;` separates statements, and an `if` with its `else` is one statement. Leave out the `;`.",
};

pub const CASE_ELSE: Message = Message {
    head: "a `case` has no `else`",
    advice: "Write an arm for each value, or test the other values with an `if` before the `case`.",
};

pub const VARIABLE_ENTRY: Message = Message {
    head: "a variable can't be an entry",
    advice: "A component's variables are its own. Add an entry function that returns the value.",
};

pub const ENTRY_FIRST: Message = Message {
    head: "`entry` comes after `procedure` or `function`",
    advice: "Write `procedure entry put`.",
};

pub const INNER_DEFINITION: Message = Message {
    head: "constants and types aren't defined inside components or routines",
    advice: "Define them at the head of the text, before the component.",
};

pub const LATE_DEFINITION: Message = Message {
    head: "constants and types are defined before variables",
    advice: "Move the definition to the head of the text, before the first `var`.",
};

pub const INNER_VARIABLE: Message = Message {
    head: "variables are declared before `begin`",
    advice: "Move the `var` before the `begin` of this body. If the body should have ended before it, an `end` is missing.",
};

pub const SECOND_VAR: Message = Message {
    head: "one `var` declares all variables",
    advice: "Leave out this `var`: after a `;` comes the next declaration.",
};

pub const LATE_VARIABLE: Message = Message {
    head: "variables are declared before routines",
    advice: "Move the `var` before the first procedure or function.",
};

pub const TYPE_FIRST: Message = Message {
    head: "a variable is declared by `var`, before `begin`",
    advice: "Write `var x: integer;` before the `begin` of the body.",
};

pub const CYCLE: Message = Message {
    head: "an endless loop is written `cycle`",
    advice: "Write `cycle s; t end`. `while`, `repeat` and `for` repeat under a condition.",
};

pub const NEW: Message = Message {
    head: "there is no `new`: declare `var c: $`, and `init c` starts it",
    advice: "A component is a variable. It exists from the start, and `init` starts it once.",
};

pub const COBEGIN: Message = Message {
    head: "processes are started by `init a, b`",
    advice: "Give each process a type, such as `type p = process; ..`, and declare `var a, b: p`.",
};

pub const START: Message = Message {
    head: "a process is started by `init $`",
    advice: "Declare the process as a variable, such as `var a: p`, and write `init a` in the last body.",
};

pub const CALL: Message = Message {
    head: "a routine is called by its name, without `%`",
    advice: "Write `p` for a procedure, or `a.e` for the entry routine `e` of `a`.",
};

pub const ELSE_IF: Message = Message {
    head: "write `else if`",
    advice: "An `if` with another one is written `if a then s else if b then t else u`.",
};

pub const END_WORD: Message = Message {
    head: "there is no `$`: only `end` closes a block",
    advice: "`begin`, `case` and `cycle` have an `end`. An `if` or a loop has one statement, such as `begin s; t end`.",
};

pub const LEAVE: Message = Message {
    head: "nothing leaves a loop but its condition: use `while` or `repeat`",
    advice: "Test a Boolean variable, as in `repeat s until done`.",
};

pub const LET: Message = Message {
    head: "an assignment begins with the variable: `x := 1`",
    advice: "Leave out the word before it.",
};

pub const ROUTINE_WORD: Message = Message {
    head: "a routine is declared by `procedure` or `function`",
    advice: "Write `procedure p(n: integer);` or `function f(n: integer): integer;`.",
};

pub const ENTRY_WORD: Message = Message {
    head: "others can call what is declared by `procedure entry`",
    advice: "Leave the word out. Everything else of a component is its own.",
};

pub const NO_MODULES: Message = Message {
    head: "a program is one file, without modules",
    advice: "Leave the line out, and write all components into this file.",
};

pub const XOR: Message = Message {
    head: "two Booleans that differ are compared by `<>`",
    advice: "Write `a <> b`.",
};

pub const COMPONENT_NAME: Message = Message {
    head: "the name of the type comes first: `type % = $; ..`",
    advice: "Write `type % = $; .. begin .. end;`, and then declare variables of the type `%`.",
};

pub const COMPONENT_TYPE: Message = Message {
    head: "a component has a type: write `type % = $; ..`",
    advice: "Define the type, and then declare variables of it: `var x: %`.",
};

pub const CASE_LABEL: Message = Message {
    head: "a label has no word before it: `case n of 1: s; 2: t end`",
    advice: "Write only the value and `:`.",
};

pub const TWO_NAMES: Message = Message {
    head: "a name follows the name `%`",
    advice: "Write an argument in parentheses, as in `%($)`. Between two statements a `;` is missing.",
};

pub const NO_BODY: Message = Message {
    head: "the component has no body yet",
    advice: "A component ends with a body, even if there is nothing to initialise: write `begin end;`.",
};

pub const RESERVED: Message = Message {
    head: "a reserved word can't be a name",
    advice: "Choose another name.",
};

pub const WITH: Message = Message {
    head: "there is no `with`",
    advice: "Name the record before each field: `v.x := 1`.",
};

pub const SET: Message = Message {
    head: "there are no sets",
    advice: "Use an array of Booleans, such as `array [char] of boolean`.",
};

pub const IN: Message = Message {
    head: "there are no sets, and no `in`",
    advice: "Compare with each value: `(c = 'a') or (c = 'b')`.",
};

pub const UNIV: Message = Message {
    head: "there are no `univ` parameters",
    advice: "Give the parameter the very type of its arguments.",
};

pub const HEADING: Message = Message {
    head: "a text has no heading",
    advice: "Leave the line out: a text begins with `const`, `type`, `var`, a routine or `begin`.",
};

pub const PROGRAM: Message = Message {
    head: "there are no sequential programs",
    advice: "Write what it does as procedures of the process.",
};
