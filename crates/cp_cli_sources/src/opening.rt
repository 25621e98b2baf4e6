//! What a command reads, by name: a file, standard input, or bytes in memory.

ghost use Rattle.std.specs.Prelude.{◌≡◌};
ghost use Rattle.std.specs.Io.{ReadsAtMost};
ghost use Rattle.std.specs.Io.KnownBytes.{ReadConsumes};
ghost use Rattle.cp_cli_sources.specs.Sources.{remaining_of};

use crate::failure::Failure;
use cp_cli::command::STANDARD_INPUT;
use cp_frontend::reading::read_text;
use cp_frontend::refusal::Refusal;
use std::alloc::Global;
use std::fs::{self, Files};
use std::io::{self, Cursor, ErrorKind, Input, Read};

// Why a directory can't be read.
const A_DIRECTORY: &str = "a directory";

/// What is read.
#[derive(Drop)]
pub enum Source<F, I> {
    File(F),
    StandardInput(I),
    Bytes(Cursor<Vec<u8>>),
}

impl<F: Read, I: Read> Read for Source<F, I> {
    ghost remaining = { remaining_of F.remaining I.remaining };

    fn read(&mut self, buffer: &mut [u8]) -> io::Result<usize>
        ensures bound { ReadsAtMost result buffer.new }
        ensures bytes { ReadConsumes (remaining_of F.remaining I.remaining self.old)
            (remaining_of F.remaining I.remaining self.new) result buffer.new }
    {
        match self {
            Source::File(file) => file.read(buffer),
            Source::StandardInput(input) => input.read(buffer),
            Source::Bytes(bytes) => bytes.read(buffer),
        }
    }
}

impl<F, I> Source<F, I> {
    /// The source of these bytes.
    pub fn of_bytes(bytes: Vec<u8>) -> Source<F, I> {
        Source::Bytes(Cursor::new(bytes))
    }
}

/// Reads the bytes of a text.
///
/// # Errors
///
/// I1 if a read fails, M if memory runs out.
pub fn read_bytes<R: Read>(alloc: Global, text: &mut R) -> Result<Vec<u8>, Refusal> {
    Ok(read_text(alloc, text)?)
}

/// Opens what has this name, where `-` is standard input.
///
/// # Errors
///
/// `Unopened` if a file can't be opened, M if memory runs out.
pub fn open_named<'a, H: Files + Input>(
    rt: &H,
    name: &'a str,
) -> Result<Source<H::File, H::Reader>, Failure<'a>> {
    if name == STANDARD_INPUT {
        return Ok(Source::StandardInput(rt.reader()));
    }
    match fs::open(rt, name) {
        Ok(file) => Ok(Source::File(file)),
        Err(error) => Err(match error.kind() {
            ErrorKind::OutOfMemory => Failure::Refused(Refusal::Memory),
            _ => Failure::Unopened { file: name, error },
        }),
    }
}

// Whether a directory has this name.
fn is_directory(files: &impl Files, name: &str) -> bool {
    match fs::metadata(files, name) {
        Ok(metadata) => metadata.is_dir(),
        Err(_) => false,
    }
}

/// Opens what has this name, where `-` is standard input.
///
/// # Errors
///
/// `NoFile` if a file can't be opened or is a directory, M if memory runs out.
pub fn open<'a, H: Files + Input>(
    rt: &H,
    name: &'a str,
) -> Result<Source<H::File, H::Reader>, Failure<'a>> {
    if name != STANDARD_INPUT && is_directory(rt, name) {
        return Err(Failure::NoFile {
            file: name,
            reason: A_DIRECTORY,
        });
    }
    match open_named(rt, name) {
        Err(Failure::Unopened { file, error }) => Err(Failure::NoFile {
            file,
            reason: reason_of(error.kind()),
        }),
        opened => opened,
    }
}

// Why a file can't be opened.
fn reason_of(kind: ErrorKind) -> &'static str {
    match kind {
        ErrorKind::NotFound => "no such file",
        ErrorKind::PermissionDenied => "permission denied",
        ErrorKind::IsADirectory => A_DIRECTORY,
        _ => "can't be opened",
    }
}
