//! Habits of Pascal and C that show in a mark: what is meant by a mark that can't be at a place.

use crate::expected::Expected;
use crate::front::{Front, is_name, is_number, is_symbol};
use crate::messages as m;
use cp_model::token::{Kind, Symbol};
use cp_output::message::Message;

/// Symbols that end a statement, or are before one.
const AROUND_STATEMENTS: [Symbol; 8] = [
    Symbol::Semicolon,
    Symbol::Begin,
    Symbol::Then,
    Symbol::Else,
    Symbol::Do,
    Symbol::Cycle,
    Symbol::Repeat,
    Symbol::Colon,
];

fn is_relation(kind: Option<&Kind>) -> bool {
    matches!(
        kind,
        Some(Kind::Symbol(
            Symbol::Equal
                | Symbol::Unequal
                | Symbol::Less
                | Symbol::Greater
                | Symbol::AtMost
                | Symbol::AtLeast
        ))
    )
}

// Whether a relation is before the place in the same expression, which could otherwise continue.
fn has_relation(expected: &Expected) -> bool {
    expected.has(Symbol::Ampersand) && !expected.has(Symbol::Equal)
}

fn equal(front: &Front<'_>, expected: &Expected) -> Option<Message> {
    if front.follows(Symbol::Equal) {
        Some(m::DOUBLE_EQUAL)
    } else if front.follows(Symbol::Colon)
        || front.follows(Symbol::Less)
        || front.follows(Symbol::Greater)
    {
        Some(m::ONE_MARK)
    } else if expected.has(Symbol::Assign) {
        Some(m::ASSIGN)
    } else if has_relation(expected) {
        Some(m::PARENTHESES)
    } else if front.is_after_label(expected) {
        Some(m::LABEL_COLON)
    } else if front.is_after_variable(expected) {
        Some(m::FIRST_VALUE)
    } else if expected.has(Symbol::Colon) {
        Some(m::DECLARATION)
    } else {
        None
    }
}

fn assign(front: &Front<'_>, expected: &Expected) -> Option<Message> {
    if expected.is_only(Symbol::Equal) {
        Some(m::DEFINITION)
    } else if front.follows(Symbol::CloseParenthesis) && expected.has(Symbol::Semicolon) {
        Some(m::BRACKETS)
    } else if front.follows_sooner(Symbol::Assign, &AROUND_STATEMENTS) {
        Some(m::ONE_ASSIGNMENT)
    } else if front.is_after_variable(expected) {
        Some(m::FIRST_VALUE)
    } else if expected.has(Symbol::CloseBracket) {
        None
    } else if expected.has(Symbol::Equal) || has_relation(expected) {
        Some(m::EQUALITY)
    } else if expected.has(Symbol::Colon) {
        Some(m::DECLARATION)
    } else {
        None
    }
}

fn relation(front: &Front<'_>, expected: &Expected) -> Option<Message> {
    if front.follows(Symbol::Equal) {
        Some(m::EQUAL_LAST)
    } else if front.follows(Symbol::Less) {
        Some(m::ONE_MARK)
    } else if has_relation(expected) {
        Some(m::PARENTHESES)
    } else {
        None
    }
}

// `n++`, `n += 1`, and `a * -1`.
fn sign(front: &Front<'_>, expected: &Expected) -> Option<Message> {
    let doubled = is_symbol(front.after(1), Symbol::Plus)
        || is_symbol(front.after(1), Symbol::Minus);
    if is_name(front.before(1)) && (doubled || front.is_next(Symbol::Equal)) {
        Some(m::INCREMENT)
    } else if front.is_here(Symbol::Minus) && front.is_next(Symbol::Greater) {
        Some(if front.is_after_label(expected) {
            m::LABEL_COLON
        } else {
            m::ARROW
        })
    } else if expected.has_value() {
        Some(m::SIGN)
    } else {
        arithmetic(front, expected)
    }
}

// An operator after a bound or a constant, which are no expressions.
fn arithmetic(front: &Front<'_>, expected: &Expected) -> Option<Message> {
    let is_operand = is_name(front.before(1)) || is_number(front.before(1));
    if !is_operand || expected.has(Symbol::Star) {
        None
    } else if is_symbol(front.before(2), Symbol::DotDot) || expected.has(Symbol::DotDot) {
        Some(m::BOUND)
    } else if expected.is_only(Symbol::Semicolon) {
        Some(m::CONSTANT)
    } else {
        None
    }
}

// `a ** b`, and a product as a bound.
fn star(front: &Front<'_>, expected: &Expected) -> Option<Message> {
    if front.follows(Symbol::Star) {
        Some(m::POWER)
    } else {
        arithmetic(front, expected)
    }
}

fn close(front: &Front<'_>, expected: &Expected) -> Option<Message> {
    if front.follows(Symbol::OpenParenthesis) {
        Some(m::NO_ARGUMENTS)
    } else if front.follows(Symbol::Semicolon) {
        Some(m::LAST_SEMICOLON)
    } else if expected.has(Symbol::Colon) {
        Some(m::PARAMETER_TYPE)
    } else {
        None
    }
}

fn open(front: &Front<'_>) -> Option<Message> {
    if front.follows(Symbol::Init) {
        Some(m::INIT_LIST)
    } else {
        None
    }
}

// A `,` between values of an enumeration, groups of parameters, or definitions.
fn comma(front: &Front<'_>, expected: &Expected) -> Option<Message> {
    if is_symbol(front.before(2), Symbol::Equal) && is_name(front.before(1)) {
        Some(m::ENUMERATION)
    } else if expected.has(Symbol::Semicolon) {
        Some(m::SEPARATOR)
    } else {
        None
    }
}

fn close_index(expected: &Expected) -> Option<Message> {
    if expected.is_only(Symbol::DotDot) {
        Some(m::INDEX_RANGE)
    } else {
        None
    }
}

fn index(front: &Front<'_>) -> Option<Message> {
    let item = is_name(front.before(1));
    if item && front.follows_sooner(Symbol::Init, &AROUND_STATEMENTS) {
        Some(m::ELEMENT)
    } else if item && front.is_type_name() {
        Some(m::ARRAY_TYPE)
    } else {
        None
    }
}

fn dot(front: &Front<'_>, expected: &Expected) -> Option<Message> {
    if is_number(front.before(1)) && is_number(front.after(1)) {
        Some(m::REAL)
    } else if front.follows(Symbol::End) && expected.is_only(Symbol::Semicolon) {
        Some(m::INNER_DOT)
    } else {
        None
    }
}

// `repeat s while c;`, where a `do` could be.
fn ends_repeat(front: &Front<'_>, expected: &Expected) -> bool {
    expected.has(Symbol::Do)
        && front.innermost() == Some(Symbol::Repeat)
        && front.follows_sooner(Symbol::While, &AROUND_STATEMENTS)
}

fn dots(front: &Front<'_>, expected: &Expected) -> Option<Message> {
    if front.is_after_label(expected) {
        Some(m::LABEL_RANGE)
    } else {
        None
    }
}

fn semicolon(front: &Front<'_>, expected: &Expected) -> Option<Message> {
    if ends_repeat(front, expected) {
        Some(m::REPEAT_UNTIL)
    } else if expected.has(Symbol::Colon) && !expected.has(Symbol::Comma) {
        Some(m::RESULT_TYPE)
    } else {
        None
    }
}

/// What is meant by the mark at a place, if that is known.
pub fn foreign_habit_of_mark(
    front: &Front<'_>,
    expected: &Expected,
    symbol: Symbol,
) -> Option<Message> {
    match symbol {
        Symbol::Assign => assign(front, expected),
        Symbol::Equal => equal(front, expected),
        Symbol::Plus | Symbol::Minus => sign(front, expected),
        Symbol::Star => star(front, expected),
        Symbol::Div | Symbol::Mod => arithmetic(front, expected),
        Symbol::OpenParenthesis => open(front),
        Symbol::CloseParenthesis => close(front, expected),
        Symbol::OpenBracket => index(front),
        Symbol::CloseBracket => close_index(expected),
        Symbol::Comma => comma(front, expected),
        Symbol::Dot => dot(front, expected),
        Symbol::DotDot => dots(front, expected),
        Symbol::Semicolon => semicolon(front, expected),
        Symbol::End if ends_repeat(front, expected) => Some(m::REPEAT_UNTIL),
        Symbol::Ampersand if front.follows(Symbol::Ampersand) => Some(m::DOUBLE_AMPERSAND),
        _ if is_relation(front.after(0)) => relation(front, expected),
        _ => None,
    }
}
