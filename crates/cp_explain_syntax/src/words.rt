//! Habits of other languages that show in a word: what is meant by a word that can't be at a
//! place. `habits` has the words themselves.

use crate::expected::Expected;
use crate::front::{Front, is_name, is_symbol, letters};
use crate::habits::{of_leading, of_unexpected_word, type_of_word};
use crate::messages as m;
use cp_model::token::{Kind, Symbol};
use cp_output::message::Message;

/// Symbols that begin an arm of a `case`, or its statement.
const AROUND_ARMS: [Symbol; 3] = [Symbol::Colon, Symbol::Of, Symbol::Case];

// `else` after a `;`, or in a `case`, where no `if` is before it in the same arm.
fn otherwise(front: &Front<'_>) -> Option<Message> {
    let in_arm = front.innermost() == Some(Symbol::Case);
    if in_arm && !front.follows_sooner(Symbol::Then, &AROUND_ARMS) {
        Some(m::CASE_ELSE)
    } else if front.follows(Symbol::Semicolon) {
        Some(m::ELSE_SEMICOLON)
    } else {
        None
    }
}

fn end(front: &Front<'_>) -> Option<Message> {
    match (front.follows(Symbol::Semicolon), front.innermost()) {
        (true, Some(Symbol::Case)) => Some(m::CASE_SEMICOLON),
        (true, Some(Symbol::Record)) => Some(m::RECORD_SEMICOLON),
        _ => None,
    }
}

fn entry(front: &Front<'_>) -> Option<Message> {
    if front.follows(Symbol::Var) {
        Some(m::VARIABLE_ENTRY)
    } else if front.is_next(Symbol::Procedure) || front.is_next(Symbol::Function) {
        Some(m::ENTRY_FIRST)
    } else {
        None
    }
}

// Constants or types where they can't be defined.
fn definitions(front: &Front<'_>, expected: &Expected) -> Option<Message> {
    if front.is_in_component() || expected.has_statement() {
        Some(m::INNER_DEFINITION)
    } else if expected.has(Symbol::Begin) {
        Some(m::LATE_DEFINITION)
    } else {
        None
    }
}

fn variables(front: &Front<'_>, expected: &Expected) -> Option<Message> {
    if expected.has_statement() {
        Some(m::INNER_VARIABLE)
    } else if !front.follows(Symbol::Semicolon) {
        None
    } else if expected.has_name() {
        Some(m::SECOND_VAR)
    } else if expected.has(Symbol::Procedure) {
        Some(m::LATE_VARIABLE)
    } else {
        None
    }
}

// `process p;` and `type process p;`, and the word as a name.
fn component(front: &Front<'_>, expected: &Expected) -> Option<Message> {
    if !is_name(front.after(1)) {
        None
    } else if front.follows(Symbol::Type) {
        Some(m::COMPONENT_NAME)
    } else if expected.has(Symbol::Type) || expected.has_name() && expected.has(Symbol::Begin) {
        Some(m::COMPONENT_TYPE)
    } else {
        None
    }
}

// `while` after the statements of a `repeat`, without a `do` of its own.
fn repeated(front: &Front<'_>) -> Option<Message> {
    let ends = [Symbol::Semicolon, Symbol::End, Symbol::Until];
    let in_repeat = front.innermost() == Some(Symbol::Repeat);
    if in_repeat && !front.comes_sooner(Symbol::Do, &ends) {
        Some(m::REPEAT_UNTIL)
    } else {
        None
    }
}

// An array or a record that is written as the type of a parameter or of a result.
fn written_type(front: &Front<'_>, expected: &Expected) -> Option<Message> {
    if expected.is_name() && front.follows(Symbol::Colon) {
        Some(m::PARAMETER_TYPE_NAME)
    } else {
        None
    }
}

fn label(front: &Front<'_>, expected: &Expected) -> Option<Message> {
    if front.innermost() == Some(Symbol::Case) && !expected.has_statement() {
        Some(m::CASE_LABEL)
    } else {
        None
    }
}

fn do_loop(front: &Front<'_>, expected: &Expected) -> Option<Message> {
    if expected.has_statement() && !front.follows(Symbol::Do) {
        Some(m::DO_LOOP)
    } else {
        None
    }
}

// What isn't in the language, by its reserved word.
fn absent(front: &Front<'_>, symbol: Symbol) -> Option<Message> {
    match symbol {
        Symbol::With => Some(m::WITH),
        Symbol::Set => Some(m::SET),
        Symbol::In => Some(m::IN),
        Symbol::Univ => Some(m::UNIV),
        Symbol::Program if front.index == 0 => Some(m::HEADING),
        Symbol::Program => Some(m::PROGRAM),
        _ => None,
    }
}

// Whether the place is that of a name that is being declared.
fn is_declared(front: &Front<'_>, expected: &Expected) -> bool {
    expected.is_name()
        && matches!(
            front.before(1),
            Some(Kind::Symbol(
                Symbol::Var
                    | Symbol::Const
                    | Symbol::Type
                    | Symbol::Comma
                    | Symbol::Procedure
                    | Symbol::Function
                    | Symbol::Entry
            ))
        )
}

fn is_word(symbol: Symbol) -> bool {
    (symbol as u8) <= (Symbol::With as u8)
}

/// What is meant by the reserved word at a place, if that is known.
pub fn foreign_habit_of_word(
    front: &Front<'_>,
    expected: &Expected,
    symbol: Symbol,
) -> Option<Message> {
    let is_component = matches!(symbol, Symbol::Process | Symbol::Monitor | Symbol::Class);
    if is_component {
        if let Some(message) = component(front, expected) {
            return Some(message);
        }
    }
    let is_entry = symbol == Symbol::Entry;
    if is_word(symbol) && !is_entry && is_declared(front, expected) {
        return Some(m::RESERVED);
    }
    match symbol {
        Symbol::While => repeated(front),
        Symbol::Array | Symbol::Record => written_type(front, expected),
        Symbol::Case => label(front, expected),
        Symbol::Do => do_loop(front, expected),
        Symbol::Else => otherwise(front),
        Symbol::End => end(front),
        Symbol::Entry => entry(front),
        Symbol::Const | Symbol::Type => definitions(front, expected),
        Symbol::Var => variables(front, expected),
        _ => absent(front, symbol),
    }
}

// Whether the word before the place begins a statement or a declaration.
fn is_leading(front: &Front<'_>) -> bool {
    matches!(
        front.before(2),
        None | Some(Kind::Symbol(
            Symbol::Semicolon
                | Symbol::Begin
                | Symbol::Then
                | Symbol::Else
                | Symbol::Do
                | Symbol::Cycle
                | Symbol::Repeat
                | Symbol::Colon
                | Symbol::Var
                | Symbol::Case
        ))
    )
}

// What is meant by the word before the place.
fn leading(front: &Front<'_>, expected: &Expected) -> Option<Message> {
    let word = letters(front.before(1));
    if expected.has(Symbol::Semicolon) && word == b"new".as_slice() {
        Some(m::NEW)
    } else if expected.has(Symbol::Assign) && is_leading(front) {
        of_leading(word)
    } else {
        None
    }
}

// `char c` for `c: char`, and a type that is followed by a name among declarations.
fn typed(front: &Front<'_>, expected: &Expected) -> Option<Message> {
    let is_typed = is_name(front.before(1))
        && (type_of_word(letters(front.before(1))).is_some()
            || front.defines(letters(front.before(1))));
    if is_typed && expected.has(Symbol::Colon) && expected.has(Symbol::Comma) {
        Some(m::NAME_BEFORE_TYPE)
    } else if expected.has(Symbol::Procedure) && is_name(front.after(1)) {
        declared(front)
    } else {
        None
    }
}

// What is meant by a name and another one, where a declaration can be.
fn declared(front: &Front<'_>) -> Option<Message> {
    let word = letters(front.after(0));
    if type_of_word(word).is_some() {
        Some(m::TYPE_FIRST)
    } else {
        of_leading(word)
    }
}

// A name after another one in the same line.
fn second(front: &Front<'_>, expected: &Expected) -> Option<Message> {
    let ends = expected.has(Symbol::Semicolon) && expected.has(Symbol::End);
    if ends && is_name(front.before(1)) && front.is_in_line() {
        Some(m::TWO_NAMES)
    } else {
        None
    }
}

/// What is meant by the number or the character at a place, if that is known.
pub fn foreign_habit_of_value(front: &Front<'_>, expected: &Expected) -> Option<Message> {
    match leading(front, expected) {
        Some(message) => Some(message),
        None => written_type(front, expected),
    }
}

/// What is meant by the name at a place, if that is known.
pub fn foreign_habit_of_name(front: &Front<'_>, expected: &Expected) -> Option<Message> {
    let word = letters(front.after(0));
    if expected.has(Symbol::Ampersand) && word == b"and".as_slice() {
        return Some(m::AND);
    }
    if expected.has(Symbol::Procedure)
        && is_symbol(front.after(1), Symbol::Equal)
        && front.is_in_component()
    {
        return Some(m::NO_BODY);
    }
    let meant = leading(front, expected).or(of_unexpected_word(word));
    match meant.or(typed(front, expected)) {
        Some(message) => Some(message),
        None => second(front, expected),
    }
}
