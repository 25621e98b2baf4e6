//! Which parts of a line have which style. A line of another form has none.

use crate::style::Style;
use std::alloc::{AllocError, Global};

/// The start of a line such as `t.cp:5:3: C10: ..`.
#[derive(Clone, Copy)]
struct Heading {
    /// The length of the place.
    place: usize,
    /// Where the code after it begins and ends: a rule's name, or `note`.
    code: usize,
    end: usize,
}

// The first words of a verdict: how they begin a line, how many of their bytes are styled, and how.
const VERDICTS: [(&[u8], usize, Style); 9] = [
    (b"accepted", 8, Style::Right),
    (b"ended after ", 5, Style::Right),
    (b"ended by ", 5, Style::Right),
    (b"fault after ", 5, Style::Wrong),
    (b"fault by ", 5, Style::Wrong),
    (b"stuck after ", 5, Style::Wrong),
    (b"stuck by ", 5, Style::Wrong),
    (b"running after ", 7, Style::Doubtful),
    (b"running: ", 7, Style::Doubtful),
];

fn begins(line: &[u8], front: &[u8]) -> bool {
    front.len() <= line.len() && &line[..front.len()] == front
}

// The bytes without the digits at their end, if there are any.
fn without_digits(bytes: &[u8]) -> Option<&[u8]> {
    for count in 0..bytes.len() {
        let end = bytes.len() - count;
        if !bytes[end - 1].is_ascii_digit() {
            return if count == 0 {
                None
            } else {
                Some(&bytes[..end])
            };
        }
    }
    None
}

// The bytes without a colon and digits at their end.
fn without_number(bytes: &[u8]) -> Option<&[u8]> {
    match without_digits(bytes)? {
        [front @ .., b':'] => Some(front),
        _ => None,
    }
}

// Whether bytes are a place, which ends with the numbers of a line and a column.
fn is_place(bytes: &[u8]) -> bool {
    match without_number(bytes) {
        Some(front) => without_number(front).is_some(),
        None => false,
    }
}

// The place of a colon and a blank, from a place on.
fn find_colon(line: &[u8], from: usize) -> Option<usize> {
    for at in from..line.len() {
        if matches!(&line[at..], [b':', b' ', ..]) {
            return Some(at);
        }
    }
    None
}

// The length of the place that begins a line.
fn place_length(line: &[u8]) -> Option<usize> {
    for at in 0..line.len() {
        if matches!(&line[at..], [b':', b' ', ..]) && is_place(&line[..at]) {
            return Some(at);
        }
    }
    None
}

impl Heading {
    fn of(line: &[u8]) -> Option<Heading> {
        let place = place_length(line)?;
        let code = place.saturating_add(2);
        let end = find_colon(line, code)?;
        Some(Heading { place, code, end })
    }
}

// Whether a line is one of the source: a margin with its number, and the line.
fn is_source(line: &[u8]) -> bool {
    let [b' ', b' ', rest @ ..] = line else {
        return false;
    };
    for at in 0..rest.len() {
        if !rest[at].is_ascii_digit() {
            return 0 < at && begins(&rest[at..], b" | ");
        }
    }
    false
}

// Whether a line has only a margin and the caret at its end.
fn is_caret(line: &[u8]) -> bool {
    let [b' ', b' ', front @ .., b'^'] = line else {
        return false;
    };
    for byte in front {
        if !matches!(*byte, b' ' | b'|' | b'\t') {
            return false;
        }
    }
    true
}

// The code of a heading.
fn code_of<'a>(line: &'a [u8], heading: &Heading) -> &'a [u8] {
    let end = heading.end.min(line.len());
    &line[heading.code.min(end)..end]
}

// The style of a code.
fn code_style(code: &[u8]) -> Style {
    if code == b"note".as_slice() {
        Style::Doubtful
    } else {
        Style::Wrong
    }
}

// How many bytes of a line are a verdict, and their style.
fn verdict_of(line: &[u8]) -> Option<(usize, Style)> {
    for (front, length, style) in VERDICTS.as_slice() {
        if begins(line, front) {
            return Some((*length, *style));
        }
    }
    None
}

/// The styles of a text: at each of its bytes the style that begins there, if one does.
#[derive(Drop)]
pub(crate) struct Marks {
    pub(crate) styles: Vec<Option<Style>>,
}

impl Marks {
    /// The styles of a text.
    ///
    /// # Errors
    ///
    /// `AllocError` if memory runs out.
    pub(crate) fn of(alloc: Global, text: &[u8]) -> Result<Marks, AllocError> {
        let mut marks = Marks {
            styles: vec![in alloc; None; text.len()]?,
        };
        let mut start: usize = 0;
        for end in 0..text.len() {
            if text[end] == b'\n' {
                marks.mark_line(start, &text[start.min(end)..end]);
                start = end + 1;
            }
        }
        Ok(marks)
    }

    // The style begins at this byte.
    fn begin(&mut self, at: usize, style: Style) {
        if at < self.styles.len() {
            self.styles[at] = Some(style);
        }
    }

    // A part of a line has this style.
    fn mark(&mut self, start: usize, from: usize, to: usize, style: Style) {
        self.begin(start.saturating_add(from), style);
        self.begin(start.saturating_add(to), Style::Plain);
    }

    // Styles the line that begins at `start`.
    fn mark_line(&mut self, start: usize, line: &[u8]) {
        if is_source(line) {
            self.mark(start, 0, line.len(), Style::Source);
        } else if is_caret(line) {
            self.mark(
                start,
                line.len().saturating_sub(1),
                line.len(),
                Style::Wrong,
            );
        } else if let Some((length, style)) = verdict_of(line) {
            self.mark(start, 0, length, style);
        } else if let Some(heading) = Heading::of(line) {
            self.mark_heading(start, &heading, code_of(line, &heading));
        }
    }

    fn mark_heading(&mut self, start: usize, heading: &Heading, code: &[u8]) {
        self.mark(start, 0, heading.place, Style::Place);
        self.mark(start, heading.code, heading.end, code_style(code));
    }
}
