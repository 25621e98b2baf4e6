//! Writing all bytes of a slice, although each write may take only some of them.

ghost use Rattle.std.specs.Prelude.{◌≡◌, ◌<◌, ◌≤◌, IfErr, IfOk, OnErr, OnOk, length, take};
ghost use Rattle.std.specs.Io.KnownBytes.{Appends, Keeps};
ghost use Rattle.cp_frontend.specs.Takings.{AppendsSome};
ghost use Rattle.cp_frontend.specs.declared.refusal.Refusal.TheVariants as refusal;

use crate::refusal::Refusal;
use std::io::Write;

/// A write failed, or took nothing.
#[derive(Clone, Copy, PartialEq, Eq)]
pub struct WriteFailed;

// Writes once from what is left, which isn't empty. A write that succeeds takes at least one byte.
fn write_part<W: Write>(out: &mut W, part: &[u8]) -> Result<usize, WriteFailed>
    requires some { 0 < length part.now }
    ensures count { IfOk result (λ n. (0 < n) × (n ≤ length part.now)) }
    ensures ok { IfOk result
        (λ n. Appends (W.contents out.old) (W.contents out.new) (take n part.now)) }
    ensures err { OnErr result (Keeps (W.contents out.old) (W.contents out.new)) }
{
    match out.write(part) {
        Ok(0) => Err(WriteFailed),
        Ok(n) => Ok(n),
        Err(_) => Err(WriteFailed),
    }
}

/// Writes all the bytes. No write is called with an empty slice.
///
/// # Errors
///
/// `WriteFailed` if a write fails or takes none of the bytes that are left. A prefix of the bytes
/// has then been written.
pub fn write_all<W: Write>(out: &mut W, bytes: &[u8]) -> Result<(), WriteFailed>
    ensures whole { OnOk result (Appends (W.contents out.old) (W.contents out.new) bytes.now) }
    ensures beginning { OnErr result
        (AppendsSome (W.contents out.old) (W.contents out.new) bytes.now) }
{
    let mut written = 0;
    while written < bytes.len() {
        written += write_part(out, &bytes[written..])?;
    }
    Ok(())
}

/// Writes the result of a command.
///
/// # Errors
///
/// I2 if a write fails. A prefix of the result has then been written.
pub fn write_result<W: Write>(out: &mut W, bytes: &[u8]) -> Result<(), Refusal>
    ensures whole { OnOk result (Appends (W.contents out.old) (W.contents out.new) bytes.now) }
    ensures beginning { OnErr result
        (AppendsSome (W.contents out.old) (W.contents out.new) bytes.now) }
    ensures write { IfErr result (λ e. e ≡ refusal.Write) }
{
    write_all(out, bytes)?;
    Ok(())
}
