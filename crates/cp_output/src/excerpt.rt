//! The line that a place is in, with a caret under the place.

ghost use Rattle.std.specs.Prelude.{◌≤◌, length};

use crate::glyph::{Glyph, first_glyph, is_continuation};
use crate::page::Page;
use crate::position::Position;
use cp_base_digits::hexadecimal::hex;
use itoa::Buffer;

/// The largest number of bytes that is shown of a line. A longer line is cut.
const WIDTH: usize = 100;

/// How many bytes before the place are shown if the start of its line is cut off.
const BEFORE: usize = 60;

/// The mark where a line is cut.
const CUT: &[u8] = b"...";

// Adds the glyph that begins these bytes.
fn show(page: &mut Page, bytes: &[u8], glyph: Glyph) {
    match (glyph, bytes) {
        (Glyph::Tab, _) => page.bytes(b"\t"),
        (Glyph::Character(count), _) => page.bytes(&bytes[..count.min(bytes.len())]),
        (Glyph::Escaped, [byte, ..]) => page.bytes(&[b'\\', hex(byte / 16), hex(byte % 16)]),
        _ => {}
    }
}

// Adds blanks as wide as a glyph.
fn show_blank(page: &mut Page, glyph: Glyph) {
    match glyph {
        Glyph::Tab => page.bytes(b"\t"),
        Glyph::Character(_) => page.blanks(1),
        Glyph::Escaped => page.blanks(3),
        Glyph::Hidden(_) => {}
    }
}

// Adds these bytes as an editor shows them, or blanks of the same width.
fn show_all(page: &mut Page, bytes: &[u8], is_blank: bool) {
    let mut shown: usize = 0;
    for i in 0..bytes.len() {
        if shown <= i {
            let glyph = first_glyph(&bytes[i..]);
            if is_blank {
                show_blank(page, glyph);
            } else {
                show(page, &bytes[i..], glyph);
            }
            shown = i.saturating_add(glyph.bytes());
        }
    }
}

// The end of the line that `at` is in.
fn line_end(text: &[u8], at: usize) -> usize
    requires { at ≤ length text.now }
    ensures { (at ≤ result) × (result ≤ length text.now) }
{
    for end in at..text.len() {
        if text[end] == b'\n' {
            return end;
        }
    }
    text.len()
}

// The first place from `from` to `to` at which a character begins, or `to`.
fn boundary(text: &[u8], from: usize, to: usize) -> usize
    requires { (from ≤ to) × (to ≤ length text.now) }
    ensures { (from ≤ result) × (result ≤ to) }
{
    for at in from..to {
        if !is_continuation(text[at]) {
            return at;
        }
    }
    to
}

// The number of decimal digits of a number.
fn digits(number: usize) -> usize {
    let mut buffer = Buffer::new();
    buffer.format(number).len()
}

// Adds the margin with which each of the two lines of an excerpt begins.
fn margin(page: &mut Page, line: usize, is_blank: bool) {
    page.bytes(b"  ");
    if is_blank {
        page.blanks(digits(line));
    } else {
        page.number(line);
    }
    page.bytes(b" | ");
}

fn cut(page: &mut Page, is_cut: bool) {
    if is_cut {
        page.bytes(CUT);
    }
}

/// Adds the line of the byte `at`, which has this position, and a line with a caret under that
/// byte. `...` is where the line is cut.
pub fn excerpt(page: &mut Page, text: &[u8], at: usize, position: Position) {
    let at = at.min(text.len());
    let before = position.column.saturating_sub(1).min(at);
    let is_front_cut = WIDTH < before;
    let shown = if is_front_cut { BEFORE } else { before };
    let from = if is_front_cut {
        boundary(text, at - shown, at)
    } else {
        at - shown
    };
    let end = line_end(text, at);
    let to = boundary(text, from.saturating_add(WIDTH).max(at).min(end), end);
    margin(page, position.line, false);
    cut(page, is_front_cut);
    show_all(page, &text[from..to], false);
    cut(page, to < end);
    page.bytes(b"\n");
    margin(page, position.line, true);
    if is_front_cut {
        page.blanks(CUT.len());
    }
    show_all(page, &text[from..at], true);
    page.bytes(b"^\n");
}
