//! Readers and writers that return or take one byte at a time, and fail at one place after another.

use cp_frontend::cutting::{check_input, cut_input};
use cp_frontend::reading::{ReadError, read_text};
use cp_frontend::refusal::Refusal;
use cp_frontend::writing::{WriteFailed, write_all};
use std::alloc::{AllocError, Global};
use std::io;
use std::io::{Cursor, Read, Write};
use std::test::*;

// A place that no read or write reaches.
pub(crate) const NOWHERE: usize = 1_000_000;

// A reader that returns one byte at a time, and fails at one place.
#[derive(Drop)]
pub(crate) struct Slow<'a> {
    text: &'a [u8],
    at: usize,
    fails_at: usize,
}

impl<'a> Slow<'a> {
    pub(crate) fn new(text: &'a [u8], fails_at: usize) -> Slow<'a> {
        Slow {
            text,
            at: 0,
            fails_at,
        }
    }
}

impl<'a> Read for Slow<'a> {
    fn read(&mut self, buf: &mut [u8]) -> io::Result<usize> {
        if self.at == self.fails_at {
            return Err(io::Error::from(io::ErrorKind::BrokenPipe));
        }
        match (self.text.get(self.at), buf.first_mut()) {
            (Some(byte), Some(place)) => {
                *place = *byte;
                self.at = self.at.saturating_add(1);
                Ok(1)
            }
            _ => Ok(0),
        }
    }
}

// A writer that takes one byte at a time, fails at one place, and takes nothing at another.
#[derive(Drop)]
pub(crate) struct Narrow {
    pub(crate) taken: Vec<u8>,
    fails_at: usize,
    full_at: usize,
}

impl Narrow {
    pub(crate) fn new(alloc: Global, fails_at: usize, full_at: usize) -> Narrow {
        Narrow {
            taken: Vec::new(alloc),
            fails_at,
            full_at,
        }
    }
}

impl Write for Narrow {
    fn write(&mut self, buf: &[u8]) -> io::Result<usize> {
        if self.taken.len() == self.fails_at {
            return Err(io::Error::from(io::ErrorKind::BrokenPipe));
        }
        match buf.first() {
            Some(byte) if self.taken.len() != self.full_at => {
                self.taken.extend_from_slice(&[*byte])?;
                Ok(1)
            }
            _ => Ok(0),
        }
    }

    fn flush(&mut self) -> io::Result<()> {
        Ok(())
    }
}

fn read_slowly(alloc: Global, text: &[u8], fails_at: usize) -> Result<Vec<u8>, ReadError> {
    read_text(alloc, &mut Slow::new(text, fails_at))
}

#[test]
fn a_reader_gives_a_byte_at_a_time(rt: HostRuntime) {
    for fails_at in 0..4 {
        assert!(rt; read_slowly(rt.alloc(), b"abc", fails_at).err() == Some(ReadError::Read));
    }
    match read_slowly(rt.alloc(), b"abc", 4) {
        Ok(text) => assert!(rt; text.as_slice() == b"abc".as_slice()),
        Err(_) => panic!(rt; "a text"),
    }
}

// How many bytes are read of a text of `length` bytes.
fn read_of(alloc: Global, length: usize) -> Result<usize, ReadError> {
    let text: Vec<u8> = Vec::from_elem(alloc, b'a', length)?;
    let read = read_text(alloc, &mut Cursor::new(text.as_slice()))?;
    Ok(read.len())
}

#[test]
fn no_byte_beyond_the_limit_is_read(rt: HostRuntime) {
    for (length, read) in [
        (0, 0),
        (5000, 5000),
        (1_048_577, 1_048_577),
        (1_048_578, 1_048_577),
    ] {
        match read_of(rt.alloc(), length) {
            Ok(n) => assert!(rt; n == read),
            Err(_) => panic!(rt; "a text"),
        }
    }
}

fn write_narrowly(alloc: Global, fails_at: usize, full_at: usize) -> (Vec<u8>, bool) {
    let mut out = Narrow::new(alloc, fails_at, full_at);
    let written = write_all(&mut out, b"abc");
    (out.taken, written == Err(WriteFailed))
}

#[test]
fn a_writer_takes_a_byte_at_a_time(rt: HostRuntime) {
    let (taken, failed) = write_narrowly(rt.alloc(), 9, 9);
    assert!(rt; !failed && taken.as_slice() == b"abc".as_slice());
    let (taken, failed) = write_narrowly(rt.alloc(), 0, 9);
    assert!(rt; failed && taken.is_empty());
    let (taken, failed) = write_narrowly(rt.alloc(), 2, 9);
    assert!(rt; failed && taken.as_slice() == b"ab".as_slice());
    let (taken, failed) = write_narrowly(rt.alloc(), 9, 1);
    assert!(rt; failed && taken.as_slice() == b"a".as_slice());
}

#[test]
fn an_input_is_judged(rt: HostRuntime) {
    assert!(rt; check_input(&[0, 28, 127]) == Ok(()));
    assert!(rt; check_input(&[1, 2, 128, 255]) == Err(Refusal::InputByte { at: 2 }));
}

fn too_long(alloc: Global) -> Result<Result<(), Refusal>, AllocError> {
    let input: Vec<u8> = Vec::from_elem(alloc, 200, 1_048_577)?;
    Ok(check_input(&input))
}

#[test]
fn the_length_is_reported_before_a_byte(rt: HostRuntime) {
    assert!(rt; too_long(rt.alloc()) == Ok(Err(Refusal::InputSize)));
}

#[test]
fn an_input_is_cut_at_each_byte_28(rt: HostRuntime) {
    let Ok(parts) = cut_input(rt.alloc(), b"ab\x1c\x1cc", 5) else {
        panic!(rt; "no parts");
    };
    let wanted: [&[u8]; 5] = [b"ab", b"", b"c", b"", b""];
    assert!(rt; parts.len() == 5);
    for (part, wanted) in parts.iter().zip(wanted) {
        assert!(rt; part.as_slice() == wanted);
    }
}
