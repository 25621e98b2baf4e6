//! Notes: what is allowed but doomed, each at a place of the text.

use crate::messages::message;
use cp_model::tree::Sort;
use cp_output::message::About;
use cp_output::page::Page;
use cp_output::position::Position;
use std::alloc::{AllocError, Global};

/// What a note says.
#[derive(Clone, Copy)]
pub enum NoteKind {
    /// No `init` of this component ever runs.
    NeverInitialised(Sort),
    /// Each way to this `init` has one of the same component.
    InitialisedTwice,
    /// This `init` runs in each round of a loop.
    InitialisedInEachRound,
    /// Nothing continues the queue in which this `delay` is.
    NeverContinued,
    /// Two processes call an entry that delays them in one queue.
    TwoInOneQueue,
    /// No way leads to this statement.
    NeverRuns,
    /// A constant beyond the range of the variable or parameter that gets it.
    OutOfRange,
    /// A constant index beyond the bounds.
    OutOfBounds,
    /// A divisor that is the constant zero.
    ZeroDivisor,
    /// `chr` of a constant that is no character's number.
    NoCharacter,
    /// No way through this function sets its result.
    NoResult,
    /// Not each way to the end of this function sets its result.
    ResultUnderConditions,
    /// Not each way to this `continue` sets the result of the function.
    ReturnsEarly,
    /// A call in a monitor that leads to a `delay` in another one.
    KeepsGate,
    /// An assignment to the variable of a `for` in its own loop.
    CounterSet,
}

/// A note, with the names that it is about.
#[derive(Clone, Copy)]
struct Note<'t> {
    at: usize,
    note_kind: NoteKind,
    about: About<'t>,
}

/// Notes, in the order in which they were found.
#[derive(Drop)]
pub struct Notes<'t> {
    found: Vec<Note<'t>>,
}

impl<'t> Notes<'t> {
    pub fn new(alloc: Global) -> Notes<'t> {
        Notes {
            found: Vec::new(alloc),
        }
    }

    fn push(&mut self, at: usize, note_kind: NoteKind, about: About<'t>) -> Result<(), AllocError> {
        self.found.push(Note {
            at,
            note_kind,
            about,
        })?;
        Ok(())
    }

    /// Adds a note that reports of no name. Fails only if memory runs out, as all that follow.
    pub fn add(&mut self, at: usize, note_kind: NoteKind) -> Result<(), AllocError> {
        self.push(at, note_kind, About::NOTHING)
    }

    /// Adds a note about a name.
    pub fn add_on(
        &mut self,
        at: usize,
        note_kind: NoteKind,
        name: &'t [u8],
    ) -> Result<(), AllocError> {
        let about = About {
            name: Some(name),
            other: None,
        };
        self.push(at, note_kind, about)
    }

    /// Adds a note about two names.
    pub fn add_on_both(
        &mut self,
        at: usize,
        note_kind: NoteKind,
        name: &'t [u8],
        other: &'t [u8],
    ) -> Result<(), AllocError> {
        let about = About {
            name: Some(name),
            other: Some(other),
        };
        self.push(at, note_kind, about)
    }

    // The places of the notes with their numbers, in the order of the text.
    fn order(&self, alloc: Global) -> Result<Vec<(usize, usize)>, AllocError> {
        let mut order = Vec::new(alloc);
        for number in 0..self.found.len() {
            order.push((self.found[number].at, number))?;
        }
        order.sort()?;
        Ok(order)
    }

    /// The notes in words, in the order of the text.
    pub fn reported(&self, alloc: Global, text: &[u8]) -> Result<Vec<NoteText>, AllocError> {
        let mut cursor = Cursor::start();
        let mut reported = Vec::new(alloc);
        for (_, number) in self.order(alloc)?.as_slice() {
            if let Some(note) = self.found.get(*number) {
                cursor.advance(text, note.at);
                reported.push(note.reported(alloc, cursor.position)?)?;
            }
        }
        Ok(reported)
    }
}

impl<'t> Note<'t> {
    fn reported(&self, alloc: Global, position: Position) -> Result<NoteText, AllocError> {
        let words = message(self.note_kind);
        let mut head = Page::new(alloc);
        head.template(words.head, self.about);
        let mut advice = Page::new(alloc);
        advice.template(words.advice, self.about);
        Ok(NoteText {
            at: self.at,
            position,
            head: head.finish()?,
            advice: advice.finish()?,
        })
    }
}

/// A note in words.
#[derive(Drop)]
pub struct NoteText {
    /// The offset of its place in the text.
    pub at: usize,
    /// The position of that place.
    pub position: Position,
    /// What it says.
    pub head: Vec<u8>,
    /// How to fix it.
    pub advice: Vec<u8>,
}

impl NoteText {
    /// Adds the note to a page: its place and what it says, and a line of advice.
    pub(crate) fn write(&self, page: &mut Page, file: &[u8]) {
        page.bytes(file);
        page.bytes(b":");
        page.position(self.position);
        page.bytes(b": note: ");
        page.bytes(&self.head);
        page.bytes(b"\n  ");
        page.bytes(&self.advice);
        page.bytes(b"\n");
    }
}

// A place of a text and its position, for places that only rise.
#[derive(Drop)]
struct Cursor {
    at: usize,
    position: Position,
}

impl Cursor {
    fn start() -> Cursor {
        Cursor {
            at: 0,
            position: Position { line: 1, column: 1 },
        }
    }

    fn advance(&mut self, text: &[u8], to: usize) {
        for at in self.at..to.min(text.len()) {
            if text[at] == b'\n' {
                self.position.line = self.position.line.saturating_add(1);
                self.position.column = 1;
            } else {
                self.position.column = self.position.column.saturating_add(1);
            }
        }
        self.at = self.at.max(to);
    }
}
