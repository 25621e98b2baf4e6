//! Names of processes, monitors, entries and queues, and places in the text.

use crate::findings::Subject;
use cp_inspect::component_table::ComponentTable;
use cp_inspect::status::push_queue;
use cp_inspect::walk::Walk;
use cp_output::page::Page;
use cp_output::position::Position;
use std::alloc::{AllocError, Global};

/// The text and the machine from which names are taken.
#[derive(Drop)]
pub(crate) struct Names<'r, 't> {
    pub(crate) alloc: Global,
    pub(crate) subject: Subject<'r, 't>,
    pub(crate) components: ComponentTable<'t>,
}

fn is_in_word(byte: u8) -> bool {
    byte.is_ascii_alphanumeric() || byte == b'_'
}

// How many bytes of a text pass a test, from its start.
fn word_length(text: &[u8]) -> usize {
    for (at, byte) in text.iter().enumerate() {
        if !is_in_word(*byte) {
            return at;
        }
    }
    text.len()
}

// What is left of a text after indices in brackets at its start.
fn after_indices(text: &[u8]) -> &[u8] {
    let mut depth = 0_usize;
    for (at, byte) in text.iter().enumerate() {
        match *byte {
            b'[' => depth = depth.saturating_add(1),
            b']' => depth = depth.saturating_sub(1),
            _ if depth == 0 => return text.get(at..).unwrap_or(&[]),
            _ => {}
        }
    }
    &[]
}

// The last name of the designator at the start of a text.
fn last_name(text: &[u8]) -> &[u8] {
    let mut rest = text;
    for _ in 0..text.len() {
        let length = word_length(rest);
        let name = rest.get(..length).unwrap_or(&[]);
        rest = after_indices(rest.get(length..).unwrap_or(&[]));
        match rest {
            [b'.', after @ ..] => rest = after,
            _ => return name,
        }
    }
    &[]
}

impl<'r, 't> Names<'r, 't> {
    /// The names in a text. Fails only if memory runs out.
    pub(crate) fn of(alloc: Global, subject: Subject<'r, 't>) -> Result<Names<'r, 't>, AllocError> {
        Ok(Names {
            alloc,
            subject,
            components: ComponentTable::of(alloc, subject.tables)?,
        })
    }

    /// The name of the entry that an operation calls.
    pub(crate) fn entry(&self, operation: u32) -> &'r [u8] {
        match self.subject.program.origin(operation) {
            Some(at) => last_name(self.subject.bytes.get(at..).unwrap_or(&[])),
            None => &[],
        }
    }

    /// Where an operation comes from in the text.
    pub(crate) fn position(&self, operation: u32) -> Option<Position> {
        let at = self.subject.program.origin(operation)?;
        Some(Position::of(self.subject.bytes, at))
    }

    /// Adds where an operation comes from in the text.
    pub(crate) fn push_place(&self, page: &mut Page, operation: u32) {
        if let Some(position) = self.position(operation) {
            page.text(" at ");
            page.position(position);
        }
    }

    /// The path of the queue at an address of the shared words.
    pub(crate) fn queue(&self, address: u32) -> Result<Vec<u8>, AllocError> {
        let mut path = Vec::new(self.alloc);
        let mut walk = Walk::new(self.alloc, 0);
        push_queue(
            &mut walk,
            self.subject.tables,
            self.subject.program,
            &self.components.monitors,
            address as usize,
            &mut path,
        )?;
        Ok(path)
    }
}
