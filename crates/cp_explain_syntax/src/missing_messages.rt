//! Messages about a text that ends too soon or is nested too deeply, and about a missing token. The
//! last ones follow ``unexpected `=`: ``.

use cp_output::message::Message;

// ---- Y2 and Y3

pub const UNFINISHED: Message = Message {
    head: "the text ends too soon",
    advice: "Something is still open: each `begin`, `cycle` and `case` needs its `end`, and the whole text ends with `end.`.",
};

pub const NO_DOT: Message = Message {
    head: "the text ends too soon: its last `end` is followed by `.`",
    advice: "Write `end.`.",
};

pub const EMPTY: Message = Message {
    head: "the text ends too soon: it has no token",
    advice: "A program has at least `begin end.`.",
};

pub const DEEP: Message = Message {
    head: "the text is nested too deeply",
    advice: "At most 200 statements, expressions or types can be nested. Move inner statements into routines, and give inner types names.",
};

// ---- Y1: a token that is missing

pub const UNEXPECTED: Message = Message {
    head: "",
    advice: "No text can continue with this after what comes before it.",
};

pub const SEMICOLON: Message = Message {
    head: "a `;` is missing before it",
    advice: "Two statements, and two declarations, are separated by `;`.",
};

pub const CLOSE: Message = Message {
    head: "a `)` is missing before it",
    advice: "Each `(` needs its `)`.",
};

pub const CLOSE_INDEX: Message = Message {
    head: "a `]` is missing before it",
    advice: "Each `[` needs its `]`.",
};

pub const THEN: Message = Message {
    head: "a `then` is missing before it",
    advice: "An `if` is written `if c then s`, or `if c then s else t`.",
};

pub const DO: Message = Message {
    head: "a `do` is missing before it",
    advice: "`while` and `for` have a `do` before the statement that they repeat.",
};

pub const OF: Message = Message {
    head: "an `of` is missing before it",
    advice: "`case n of` and `array [t] of` are written with `of`.",
};

pub const END: Message = Message {
    head: "an `end` is missing before it",
    advice: "Each `begin`, `cycle`, `case` and `record` needs its `end`.",
};

pub const COLON: Message = Message {
    head: "a `:` is missing before it",
    advice: "A name and its type are separated by `:`.",
};

pub const COMMA: Message = Message {
    head: "a `,` is missing before it",
    advice: "Arguments, indices and names are separated by `,`.",
};

pub const BEGIN: Message = Message {
    head: "a `begin` is missing before it",
    advice: "The statements of a body are between `begin` and `end`. Perhaps an `end` before this place is one too many.",
};
