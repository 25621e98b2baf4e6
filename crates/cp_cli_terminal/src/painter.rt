//! A writer that paints what it is given.

use crate::painted::painted;
use std::alloc::Global;
use std::io::{self, Write};

/// A writer that keeps what it is given, and writes it painted when it is flushed. If memory runs
/// out, it writes the rest as it is. Without colours it writes everything as it is, at once.
#[derive(Drop)]
pub struct Painter<W> {
    alloc: Global,
    out: W,
    /// What is kept.
    text: Vec<u8>,
    is_painting: bool,
}

impl<W: Write> Painter<W> {
    /// The painter of what goes to a writer, with colours or without.
    pub fn new(alloc: Global, out: W, is_painting: bool) -> Painter<W> {
        Painter {
            alloc,
            out,
            text: Vec::new(alloc),
            is_painting,
        }
    }

    // Writes what is kept as it is, and paints no more.
    fn give_up(&mut self) -> io::Result<()> {
        self.is_painting = false;
        self.out.write_all(&self.text)
    }

    // Writes what is kept.
    fn paint(&mut self) -> io::Result<()> {
        match painted(self.alloc, &self.text) {
            Ok(painted) => self.out.write_all(&painted)?,
            Err(_) => self.out.write_all(&self.text)?,
        }
        self.text.clear();
        Ok(())
    }
}

impl<W: Write> Write for Painter<W> {
    fn write(&mut self, bytes: &[u8]) -> io::Result<usize> {
        if self.is_painting {
            if self.text.extend_from_slice(bytes).is_ok() {
                return Ok(bytes.len());
            }
            self.give_up()?;
        }
        self.out.write(bytes)
    }

    fn flush(&mut self) -> io::Result<()> {
        if self.is_painting {
            self.paint()?;
        }
        self.out.flush()
    }
}
