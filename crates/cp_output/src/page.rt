//! A page of an explanation: text that grows at its end.

ghost use Rattle.std.specs.Prelude.{◌≡◌, IfErr, IfOk, IfSome, None, Some};
ghost use Rattle.cp_model.specs.Decimal.{natural};
ghost use Rattle.cp_output.specs.Pages.{quoted, reported_position, with_added};

use crate::position::Position;
use cp_base_digits::decimal::push_natural;
use cp_model::tree::Identifier;
use std::alloc::{AllocError, Global};
use std::marker::Model;

/// Text that grows at its end. If memory runs out, the page takes no more, and `finish` fails. So
/// code that writes to a page needs no checks.
#[derive(Drop)]
pub struct Page {
    bytes: Vec<u8>,
    is_whole: bool,
}

impl Model for Page {
    ghost use Rattle.std.specs.Prelude.{ℕ, List, Option, None, Some, if◌then◌else◌};

    ghost Value = { Option (List ℕ) };

    ghost view = { λ page. if page.is_whole then Some page.bytes.items else None };
}

impl Page {
    /// An empty page.
    pub fn new(alloc: Global) -> Page
        ensures { result ≡ Some Rattle.std.specs.Prelude.[] }
    {
        Page {
            bytes: Vec::new(alloc),
            is_whole: true,
        }
    }

    /// The bytes of the page.
    ///
    /// # Errors
    ///
    /// `AllocError` if memory ran out while the page was written.
    pub fn finish(self) -> Result<Vec<u8>, AllocError>
        ensures whole { IfOk result (λ bytes. self ≡ Some bytes.items) }
        ensures lost { IfErr result (λ _. self ≡ None) }
    {
        let Page { bytes, is_whole } = self;
        if is_whole { Ok(bytes) } else { Err(AllocError) }
    }

    /// Adds bytes.
    pub fn bytes(&mut self, bytes: &[u8])
        ensures { IfSome self.new (λ new. with_added self.old bytes.now ≡ Some new) }
    {
        if self.is_whole {
            self.is_whole = self.bytes.extend_from_slice(bytes).is_ok();
        }
    }

    /// Adds a number in decimal digits.
    pub fn number(&mut self, n: usize)
        ensures { IfSome self.new (λ new. with_added self.old (natural n) ≡ Some new) }
    {
        if self.is_whole {
            self.is_whole = push_natural(&mut self.bytes, n as u64).is_ok();
        }
    }

    /// Adds `count` blanks.
    pub fn blanks(&mut self, count: usize) {
        for _ in 0..count {
            self.bytes(b" ");
        }
    }

    /// Adds a text.
    pub fn text(&mut self, text: &str)
        ensures { IfSome self.new (λ new. with_added self.old text.now ≡ Some new) }
    {
        self.bytes(text.as_bytes());
    }

    /// Adds a name between backquotes.
    pub fn name(&mut self, x: &Identifier)
        ensures { IfSome self.new (λ new. with_added self.old (quoted x.now.name) ≡ Some new) }
    {
        self.quoted(x.name.as_bytes());
    }

    /// Adds bytes between backquotes.
    pub fn quoted(&mut self, bytes: &[u8])
        ensures { IfSome self.new (λ new. with_added self.old (quoted bytes.now) ≡ Some new) }
    {
        self.bytes(b"`");
        self.bytes(bytes);
        self.bytes(b"`");
    }

    /// Adds a line and a column.
    pub fn position(&mut self, position: Position)
        ensures { IfSome self.new
            (λ new. with_added self.old (reported_position position.line position.column) ≡ Some new) }
    {
        self.number(position.line);
        self.bytes(b":");
        self.number(position.column);
    }
}
