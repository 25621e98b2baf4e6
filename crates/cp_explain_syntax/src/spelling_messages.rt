//! Messages about spelling.

use cp_output::message::Message;

pub const BYTE: Message = Message {
    head: "this character can't appear here",
    advice: "Outside comments and character constants a text consists of letters, digits, blanks and the marks of the language.",
};

pub const BYTE_ORDER_MARK: Message = Message {
    head: "the text begins with a byte order mark",
    advice: "An editor wrote it before the first character. Save the text without it: as plain ASCII, or as UTF-8 without a mark.",
};

pub const NOT_ASCII: Message = Message {
    head: "this character can't appear here: it isn't ASCII",
    advice: "Outside comments a text consists of letters, digits, blanks and the marks of the language. Quotes and dashes are often changed by word processors.",
};

pub const BRACE: Message = Message {
    head: "this character can't appear here: braces have no meaning",
    advice: "A comment is written between quotes: \"a comment\". Statements are grouped by `begin` and `end`.",
};

pub const SLASHES: Message = Message {
    head: "this character can't appear here: a comment is written between quotes",
    advice: "Write \"a comment\", which may have several lines.",
};

pub const SLASH: Message = Message {
    head: "this character can't appear here: integers are divided by `div`",
    advice: "Write `a div b`, and `a mod b` for the remainder.",
};

pub const EXCLAMATION: Message = Message {
    head: "this character can't appear here: a Boolean is negated by `not`",
    advice: "Write `not found`.",
};

pub const UNEQUAL: Message = Message {
    head: "this character can't appear here: unequal is written `<>`",
    advice: "Write `a <> b`.",
};

pub const POINTER: Message = Message {
    head: "this character can't appear here: there are no pointers",
    advice: "Use an array, and an index where a pointer would be.",
};

pub const POWER: Message = Message {
    head: "this character can't appear here: there is no power, so multiply, as in `n * n`",
    advice: "For a power that varies, multiply in a `for` loop.",
};

pub const PERCENT: Message = Message {
    head: "this character can't appear here: a remainder is written `mod`",
    advice: "Write `a mod b`.",
};

pub const BAR: Message = Message {
    head: "this character can't appear here: the choice of two Booleans is written `or`",
    advice: "Write `a or b`, and put relations into parentheses: `(a = 1) or (b = 2)`.",
};

pub const UNDERSCORE: Message = Message {
    head: "this character can't appear here: a name begins with a letter",
    advice: "After the first letter a name may have letters, digits and underscores.",
};

pub const COMMENT: Message = Message {
    head: "this comment is never closed",
    advice: "A comment runs from one `\"` to the next. Add the closing one.",
};

pub const STRING_COMMENT: Message = Message {
    head: "this comment is never closed: there are no strings",
    advice: "Quotes begin and end a comment. A character is written 'a'; display each by a call of its own.",
};

pub const CHARACTER: Message = Message {
    head: "this is not a character constant",
    advice: "A character constant is one printable character between apostrophes, such as 'a', or its ordinal from 0 to 127, such as '(:10:)'.",
};

pub const STRING: Message = Message {
    head: "this is not a character constant: there are no strings",
    advice: "A character constant has one character, such as 'a'. Display each character by a call of its own, or keep them in an array of char.",
};

pub const NO_CHARACTER: Message = Message {
    head: "this is not a character constant: it has no character",
    advice: "A character constant has exactly one character, such as 'a'. A blank is ' '.",
};

pub const BACKSLASH: Message = Message {
    head: "this is not a character constant: `\\` has no meaning of its own",
    advice: "A character that can't be printed is written by its ordinal: '(:10:)' is the line feed.",
};

pub const NUMBER: Message = Message {
    head: "this number is too large",
    advice: "Integers are at most 32767.",
};

pub const SIGNED: Message = Message {
    head: "this number is too large: the number is written without its sign",
    advice: "The sign isn't part of a number, and a number is at most 32767. Write `-32767 - 1`.",
};

pub const WORD: Message = Message {
    head: "this word is too long",
    advice: "A word has at most 64 letters, digits and underscores.",
};

pub const SIZE: Message = Message {
    head: "the text is too long",
    advice: "A text has at most 1,048,576 bytes.",
};
