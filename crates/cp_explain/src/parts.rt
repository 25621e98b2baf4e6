//! The parts of an explanation, taken from its page: lines of words for people.

use std::alloc::{AllocError, Global};

/// The number of lines that show the place, after the first line.
const EXCERPT_LINES: usize = 2;

const EXPECTED: &[u8] = b"  Expected one of: ";

const RULE_HINT: &[u8] = b"  `cpm explain ";

/// What an explanation says.
#[derive(Drop)]
pub struct Parts<'p> {
    pub(crate) message: &'p [u8],
    pub(crate) advice: &'p [u8],
    /// What helps besides: types, numbers of arguments, and declarations.
    pub(crate) hints: Vec<&'p [u8]>,
    /// The tokens that can be at the place.
    pub(crate) expected: Vec<&'p [u8]>,
}

/// The lines of a page. Fails only if memory runs out.
pub fn lines<'p>(alloc: Global, page: &'p [u8]) -> Result<Vec<&'p [u8]>, AllocError> {
    let mut all = Vec::new(alloc);
    let mut start: usize = 0;
    for end in 0..page.len() {
        if page[end] == b'\n' {
            all.push(&page[start.min(end)..end])?;
            start = end + 1;
        }
    }
    Ok(all)
}

/// The items of a list with `, ` between them. Fails only if memory runs out.
pub fn items<'p>(alloc: Global, list: &'p [u8]) -> Result<Vec<&'p [u8]>, AllocError> {
    let mut all = Vec::new(alloc);
    let mut start: usize = 0;
    for end in 0..list.len() {
        if matches!(&list[end..], [b',', b' ', ..]) {
            all.push(&list[start.min(end)..end])?;
            start = end.saturating_add(2);
        }
    }
    all.push(&list[start.min(list.len())..])?;
    Ok(all)
}

// A line without its first two blanks.
fn unindented(line: &[u8]) -> &[u8] {
    match line {
        [b' ', b' ', rest @ ..] => rest,
        _ => line,
    }
}

fn begins(line: &[u8], front: &[u8]) -> bool {
    front.len() <= line.len() && &line[..front.len()] == front
}

// The bytes after the first `count`.
fn after(line: &[u8], count: usize) -> &[u8] {
    &line[count.min(line.len())..]
}

// A list without the full stop at its end.
fn without_stop(list: &[u8]) -> &[u8] {
    match list {
        [front @ .., b'.'] => front,
        _ => list,
    }
}

impl<'p> Parts<'p> {
    /// The parts of a page. Fails only if memory runs out.
    pub fn of(alloc: Global, page: &'p [u8]) -> Result<Parts<'p>, AllocError> {
        let lines = lines(alloc, page)?;
        let mut parts = Parts {
            message: b"",
            advice: b"",
            hints: Vec::new(alloc),
            expected: Vec::new(alloc),
        };
        for number in 0..lines.len() {
            parts.add(alloc, number, lines[number])?;
        }
        Ok(parts)
    }

    fn add(&mut self, alloc: Global, number: usize, line: &'p [u8]) -> Result<(), AllocError> {
        if number == 0 {
            self.message = line;
        } else if number <= EXCERPT_LINES || begins(line, RULE_HINT) {
            return Ok(());
        } else if number == EXCERPT_LINES + 1 {
            self.advice = unindented(line);
        } else if begins(line, EXPECTED) {
            self.expected = items(alloc, without_stop(after(line, EXPECTED.len())))?;
        } else {
            self.hints.push(unindented(line))?;
        }
        Ok(())
    }
}
