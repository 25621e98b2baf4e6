//! Messages: what is wrong and how to fix it, and the names in them.

use crate::excerpt::excerpt;
use crate::page::Page;
use crate::position::Position;

/// What is wrong, and how to fix it. `$` and `%` represent the names that the message is about.
#[derive(Clone, Copy)]
pub struct Message {
    pub head: &'static str,
    pub advice: &'static str,
}

/// The names that a message is about: `$` represents the first, and `%` the second.
#[derive(Clone, Copy)]
pub struct About<'a> {
    pub name: Option<&'a [u8]>,
    pub other: Option<&'a [u8]>,
}

impl<'a> About<'a> {
    /// The names of a message that has none.
    pub const NOTHING: About<'static> = About {
        name: None,
        other: None,
    };
}

impl Page {
    // Adds one byte of a message.
    fn message_byte(&mut self, byte: u8, about: About<'_>) {
        match (byte, about.name, about.other) {
            (b'$', Some(name), _) => self.bytes(name),
            (b'%', _, Some(other)) => self.bytes(other),
            _ => self.bytes(&[byte]),
        }
    }

    /// Adds a text, with its `$` and `%` replaced by the names that they represent.
    pub fn template(&mut self, text: &str, about: About<'_>) {
        for byte in text.as_bytes() {
            self.message_byte(*byte, about);
        }
    }

    /// Adds the end of the first line, and the line of the place.
    pub fn place(&mut self, text: &[u8], at: usize) {
        self.bytes(b"\n");
        excerpt(self, text, at, Position::of(text, at));
    }

    /// Adds the end of the first line, the line of the place, and the advice.
    pub fn place_and_advice(&mut self, text: &[u8], at: usize, advice: &str, about: About<'_>) {
        self.place(text, at);
        self.bytes(b"  ");
        self.template(advice, about);
    }

    /// Adds a message, with the line of the place.
    pub fn message(&mut self, text: &[u8], at: usize, message: Message, about: About<'_>) {
        self.template(message.head, about);
        self.place_and_advice(text, at, message.advice, about);
        self.bytes(b"\n");
    }

    /// Adds a hint to the page that explains a rule, by its letter and number.
    pub fn hint(&mut self, letter: &str, number: u8) {
        self.text("  `cpm explain ");
        self.text(letter);
        self.number(usize::from(number));
        self.text("` says more.\n");
    }
}
