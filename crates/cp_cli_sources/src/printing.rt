//! Standard output.

use cp_cli::command::VERSION;
use cp_cli::completions::{Shell, completions};
use cp_frontend::refusal::Refusal;
use cp_frontend::writing::write_result;
use std::alloc::Global;
use std::io::{self, Print, Write};

/// What a command shows besides its results.
#[derive(Clone, Copy)]
pub struct Screen {
    /// How far it has come.
    pub progress: bool,
    /// Colours.
    pub colours: bool,
}

/// Hands over what the writer may hold back.
///
/// # Errors
///
/// I2 if that fails.
pub fn flush<W: Write>(out: &mut W) -> Result<(), Refusal> {
    match out.flush() {
        Ok(()) => Ok(()),
        Err(_) => Err(Refusal::Write),
    }
}

/// What was found, after the writer has handed over what it may hold back. So a function that owns
/// a writer has one exit, and its proof is shorter.
///
/// # Errors
///
/// The refusal if nothing was found, and I2 if the writer fails.
pub fn flushed<T: Drop, W: Write>(found: Result<T, Refusal>, out: &mut W) -> Result<T, Refusal> {
    let found = found?;
    flush(out)?;
    Ok(found)
}

/// Prints bytes.
///
/// # Errors
///
/// I2 if a write fails.
pub fn print_bytes<H: Print>(rt: &H, bytes: &[u8]) -> Result<(), Refusal> {
    let mut out = io::writer(rt);
    write_result(&mut out, bytes)?;
    flush(&mut out)
}

/// Prints the script by which a shell completes the words of a command line.
///
/// # Errors
///
/// M if memory runs out, and I2 if a write fails.
pub fn print_completions<H: Print>(rt: &H, alloc: Global, shell: Shell) -> Result<(), Refusal> {
    let script = completions(alloc, shell)?;
    let mut out = io::writer(rt);
    write_result(&mut out, &script)?;
    flush(&mut out)
}

/// Prints the name of the program and its version.
///
/// # Errors
///
/// I2 if a write fails.
pub fn print_version<H: Print>(rt: &H) -> Result<(), Refusal> {
    let mut out = io::writer(rt);
    if writeln!(out, "cpm {VERSION}").is_err() {
        return Err(Refusal::Write);
    }
    flush(&mut out)
}
