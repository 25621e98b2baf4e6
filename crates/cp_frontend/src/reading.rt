//! Reading a text or an input, up to one byte more than either may have.

ghost use Rattle.std.specs.Prelude.{◌≡◌, ◌+◌, ◌++◌, ◌<◌, ◌≤◌, ℕ, IfErr, IfOk, IfSome, List, OnErr, OnOk, length, take, vec_len};
ghost use Rattle.std.specs.Io.KnownBytes.{Consumes, IsAtEnd, Keeps};
ghost use Rattle.cp_frontend.specs.Takings.{TakesFront, TakesUpTo, front};
ghost use Rattle.cp_frontend.specs.declared.reading.ReadError.TheVariants as error;

use std::alloc::{AllocError, Global};
use std::io::Read;

/// A text or an input has at most 1,048,576 bytes. Reading one byte more shows that it is too long.
pub const MAX_READ_BYTES: usize = 1_048_577;

const MAX_PART_BYTES: usize = 4096;

/// Why the bytes of a reader couldn't be read.
#[derive(Clone, Copy, PartialEq, Eq)]
pub enum ReadError {
    /// A read failed.
    Read,
    /// Memory was refused.
    Memory,
}

impl From<AllocError> for ReadError {
    ghost from_gives = { λ _ e. e ≡ error.Memory };

    fn from(_error: AllocError) -> ReadError {
        ReadError::Memory
    }
}

// Reads once, into a buffer that isn't empty.
fn fill<R: Read>(reader: &mut R, buffer: &mut [u8]) -> Result<usize, ReadError>
    requires some { 0 < length buffer.old }
    ensures count { IfOk result (λ n. n ≤ length buffer.new) }
    ensures length { length buffer.new ≡ length buffer.old }
    ensures ok { IfOk result
        (λ n. Consumes (R.remaining reader.old) (R.remaining reader.new) (take n buffer.new)) }
    ensures end { IfOk result (λ n. n ≡ 0 → IsAtEnd (R.remaining reader.new)) }
    ensures err { OnErr result (Keeps (R.remaining reader.old) (R.remaining reader.new)) }
    ensures why { IfErr result (λ e. e ≡ error.Read) }
{
    match reader.read(buffer) {
        Ok(n) => Ok(n),
        Err(_) => Err(ReadError::Read),
    }
}

// Reads once and appends the bytes to `text`. A read of no bytes means that the reader is at its
// end.
fn read_part<R: Read>(reader: &mut R, text: &mut Vec<u8>) -> Result<usize, ReadError>
    requires room { vec_len text.old < MAX_READ_BYTES }
    ensures count { IfOk result (λ n. vec_len text.new ≡ vec_len text.old + n) }
    ensures most { vec_len text.new ≤ MAX_READ_BYTES }
    ensures appends { IfOk result (λ n. (bs : List ℕ) × (text.new.items ≡ text.old.items ++ bs)
        × Consumes (R.remaining reader.old) (R.remaining reader.new) bs) }
    ensures end { IfOk result (λ n. n ≡ 0 → IsAtEnd (R.remaining reader.new)) }
    ensures failed { IfErr result
        (λ e. e ≡ error.Read → Keeps (R.remaining reader.old) (R.remaining reader.new)) }
    ensures taken { OnErr result ((bs : List ℕ) × (vec_len text.old + length bs ≤ MAX_READ_BYTES)
        × Consumes (R.remaining reader.old) (R.remaining reader.new) bs) }
{
    let mut buffer = [0u8; MAX_PART_BYTES];
    let room = (MAX_READ_BYTES - text.len()).min(MAX_PART_BYTES);
    let part = &mut buffer[..room];
    let count = fill(reader, part)?;
    text.extend_from_slice(&part[..count])?;
    Ok(count)
}

/// Reads all bytes of a reader, or only the first 1,048,577 of them. No byte after these is read,
/// and the reader is never given an empty buffer.
///
/// # Errors
///
/// `Read` if a read fails, `Memory` if memory runs out.
pub fn read_text<R: Read>(alloc: Global, reader: &mut R) -> Result<Vec<u8>, ReadError>
    ensures bytes { IfOk result
        (λ text. IfSome (R.remaining reader.old) (λ xs. text.items ≡ front xs)) }
    ensures front { OnOk result (TakesFront (R.remaining reader.old) (R.remaining reader.new)) }
    ensures most { IfOk result (λ text. vec_len text ≤ MAX_READ_BYTES) }
    ensures failed { IfErr result (λ e. e ≡ error.Read → (bs : List ℕ) × (length bs < MAX_READ_BYTES)
        × Consumes (R.remaining reader.old) (R.remaining reader.new) bs) }
    ensures taken { OnErr result (TakesUpTo (R.remaining reader.old) (R.remaining reader.new)) }
{
    let mut text = Vec::new(alloc);
    while text.len() < MAX_READ_BYTES {
        if read_part(reader, &mut text)? == 0 {
            return Ok(text);
        }
    }
    Ok(text)
}
