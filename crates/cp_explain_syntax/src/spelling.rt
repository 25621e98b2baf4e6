//! Why a text has no tokens, by the bytes at the place where the scanner stops.

use crate::front::part;
use crate::spelling_messages as m;
use cp_output::message::{About, Message};
use cp_output::page::Page;
use cp_scan::Cause;
use std::alloc::Global;

/// How far after an apostrophe another one is looked for.
const STRING: usize = 80;

// Whether an operand ends at a place of a text, and another one begins after it.
fn is_between_operands(text: &[u8], at: usize) -> bool {
    let is_after = matches!(
        last_before(text, at),
        b'0'..=b'9' | b'a'..=b'z' | b'A'..=b'Z' | b'_' | b')' | b']'
    );
    let rest = part(text, at.saturating_add(1), text.len());
    let next = rest.iter().find(|byte| !is_blank(**byte));
    is_after && matches!(next, Some(b'0'..=b'9' | b'a'..=b'z' | b'A'..=b'Z' | b'('))
}

fn byte(text: &[u8], at: usize) -> Message {
    match part(text, at, text.len()) {
        [0xef, 0xbb, 0xbf, ..] if at == 0 => m::BYTE_ORDER_MARK,
        [128..=255, ..] => m::NOT_ASCII,
        [b'{' | b'}', ..] => m::BRACE,
        [b'/', b'/' | b'*', ..] => m::SLASHES,
        [b'/', ..] => m::SLASH,
        [b'!', b'=', ..] => m::UNEQUAL,
        [b'!' | b'~', ..] => m::EXCLAMATION,
        [b'^', ..] if is_between_operands(text, at) => m::POWER,
        [b'^' | b'@', ..] => m::POINTER,
        [b'%', ..] => m::PERCENT,
        [b'|', ..] => m::BAR,
        [b'_', ..] => m::UNDERSCORE,
        _ => m::BYTE,
    }
}

// Whether another apostrophe is in the same line.
fn is_closed(bytes: &[u8]) -> bool {
    for byte in bytes.iter().take(STRING) {
        if *byte == b'\'' {
            return true;
        }
        if *byte == b'\n' {
            return false;
        }
    }
    false
}

fn character(bytes: &[u8]) -> Message {
    match bytes {
        [b'\'', b'\'', ..] => m::NO_CHARACTER,
        [b'\'', b'\\', ..] => m::BACKSLASH,
        [b'\'', b'(', b':', ..] => m::CHARACTER,
        [b'\'', rest @ ..] if is_closed(rest) => m::STRING,
        _ => m::CHARACTER,
    }
}

fn is_blank(byte: u8) -> bool {
    matches!(byte, 9 | 10 | 13 | 32)
}

// The last byte before a place that isn't a blank, or 0 if there is none.
fn last_before(text: &[u8], at: usize) -> u8 {
    for byte in part(text, 0, at).iter().rev() {
        if !is_blank(*byte) {
            return *byte;
        }
    }
    0
}

// A comment that begins where a value is expected, or another one.
fn comment(text: &[u8], at: usize) -> Message {
    match last_before(text, at) {
        b'(' | b',' | b'=' => m::STRING_COMMENT,
        _ => m::COMMENT,
    }
}

// The number -32768, or another one that is too large.
fn number(text: &[u8], at: usize) -> Message {
    let is_least = matches!(
        part(text, at, at.saturating_add(6)),
        [b'3', b'2', b'7', b'6', b'8'] | [b'3', b'2', b'7', b'6', b'8', 0..=47 | 58..=255]
    );
    if is_least && last_before(text, at) == b'-' {
        m::SIGNED
    } else {
        m::NUMBER
    }
}

fn of_cause(text: &[u8], at: usize, cause: Cause) -> Message {
    let rest = part(text, at, text.len());
    match cause {
        Cause::Byte => byte(text, at),
        Cause::Comment => comment(text, at),
        Cause::Character => character(rest),
        Cause::Number => number(text, at),
        Cause::Word => m::WORD,
        Cause::Size => m::SIZE,
    }
}

/// Explains why a text has no tokens, after the heading, without the hint.
pub fn of_spelling(alloc: Global, text: &[u8], at: usize, cause: Cause) -> Page {
    let mut page = Page::new(alloc);
    page.message(text, at, of_cause(text, at, cause), About::NOTHING);
    page
}
