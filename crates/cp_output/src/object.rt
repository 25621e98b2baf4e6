//! Objects of JSON: one on a line.

ghost use Rattle.std.specs.Prelude.{IfOk};
ghost use Rattle.cp_output.specs.Json.{IsJsonLine, IsLineOf};

use serde::Serialize;
use std::alloc::{AllocError, Global};

/// The number of the form of all objects. It grows when a field changes its meaning.
pub const FORMAT: u32 = 1;

/// A value as JSON on one line, with the line feed at its end.
///
/// # Errors
///
/// `AllocError` if memory runs out.
pub fn line<T: Serialize>(alloc: Global, value: &T) -> Result<Vec<u8>, AllocError>
    ensures form { IfOk result (λ bytes. IsJsonLine bytes.items) }
    ensures value { IfOk result (λ bytes. IsLineOf (T.writes value.now) bytes.items) }
{
    let Ok(mut bytes) = serde_json::to_vec(alloc, value) else {
        return Err(AllocError);
    };
    bytes.push(b'\n')?;
    Ok(bytes)
}
