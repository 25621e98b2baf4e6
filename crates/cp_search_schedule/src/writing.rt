//! Order texts.

use cp_base_digits::decimal::push_natural;
use std::alloc::{AllocError, Global};

/// An order text that grows at its end.
#[derive(Drop)]
pub(crate) struct OrderText {
    bytes: Vec<u8>,
    /// Whether the last line has an event.
    has_event: bool,
}

impl OrderText {
    /// The text of no rounds.
    pub(crate) fn new(alloc: Global) -> OrderText {
        OrderText {
            bytes: Vec::new(alloc),
            has_event: false,
        }
    }

    // Adds an event of a process to the last line.
    fn push(&mut self, letter: &[u8], process: usize) -> Result<(), AllocError> {
        if self.has_event {
            self.bytes.extend_from_slice(b" ")?;
        }
        self.bytes.extend_from_slice(letter)?;
        push_natural(&mut self.bytes, process as u64)?;
        self.has_event = true;
        Ok(())
    }

    /// Adds a private step.
    pub(crate) fn push_private(&mut self, process: usize) -> Result<(), AllocError> {
        self.push(b"P", process)
    }

    /// Adds a kernel turn.
    pub(crate) fn push_kernel(&mut self, process: usize) -> Result<(), AllocError> {
        self.push(b"K", process)
    }

    /// Ends the round, if it has an event.
    pub(crate) fn end_round(&mut self) -> Result<(), AllocError> {
        if self.has_event {
            self.bytes.extend_from_slice(b"\n")?;
            self.has_event = false;
        }
        Ok(())
    }

    /// The length of the text.
    pub(crate) fn len(&self) -> usize {
        self.bytes.len()
    }

    /// The bytes of the text.
    pub(crate) fn into_bytes(self) -> Vec<u8> {
        let OrderText {
            bytes,
            has_event: _,
        } = self;
        bytes
    }
}
