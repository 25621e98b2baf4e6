//! The process in a queue and the bytes of a transcript, as text.

ghost use Rattle.std.specs.Prelude.{◌≡◌, ◌++◌, OnOk, false, flat_map};
ghost use Rattle.cp_model.specs.Report.{escape, occupant_text};

use cp_base_digits::decimal::push_natural;
use cp_base_digits::hexadecimal::hex;
use std::alloc::AllocError;

/// Adds the number of the process that waits in a queue, or a dash.
pub(crate) fn push_occupant(out: &mut Vec<u8>, process: Option<u32>) -> Result<(), AllocError>
    ensures { OnOk result (out.new.items ≡ out.old.items ++ occupant_text process) }
{
    match process {
        Some(number) => push_natural(out, u64::from(number)),
        None => out.extend_from_slice(b"-"),
    }
}

// Adds a byte of a transcript, or its escape.
fn push_escaped(out: &mut Vec<u8>, byte: u8) -> Result<(), AllocError>
    ensures { OnOk result (out.new.items ≡ out.old.items ++ escape byte) }
{
    if 32 <= byte && byte <= 126 && byte != b'\'' && byte != b'\\' {
        out.extend_from_slice(&[byte])
    } else {
        out.extend_from_slice(&[b'\\', hex(byte / 16), hex(byte % 16)])
    }
}

/// Adds the bytes of a transcript, or their escapes. Fails only if memory runs out.
pub fn push_all_escaped(out: &mut Vec<u8>, bytes: &[u8]) -> Result<(), AllocError>
    ensures { OnOk result (out.new.items ≡ out.old.items ++ flat_map escape bytes.now) }
{
    for byte in bytes {
        push_escaped(out, *byte)?;
    }
    Ok(())
}
