//! A text with the sequences that a terminal shows as styles (`specs/Painting.antt`).

ghost use Rattle.std.specs.Prelude.{◌≡◌, IfOk};
ghost use Rattle.cp_cli_terminal.specs.Painting.{IsPainted, with_marks};

use crate::lines::Marks;
use crate::style::Style;
use std::alloc::{AllocError, Global};

// A text with the sequences of these styles. Fails only if memory runs out.
fn with_sequences(
    alloc: Global,
    text: &[u8],
    marks: &[Option<Style>],
) -> Result<Vec<u8>, AllocError>
    ensures { IfOk result (λ painted. painted.items ≡ with_marks text.now marks.now) }
{
    let mut painted = Vec::new(alloc);
    for at in 0..text.len() {
        if let Some(Some(style)) = marks.get(at) {
            painted.extend_from_slice(style.sequence())?;
        }
        painted.push(text[at])?;
    }
    Ok(painted)
}

/// A text with its places, codes, verdicts and lines of the source styled.
///
/// # Errors
///
/// `AllocError` if memory runs out.
pub fn painted(alloc: Global, text: &[u8]) -> Result<Vec<u8>, AllocError>
    ensures { IfOk result (λ painted. IsPainted text.now painted.items) }
{
    let marks = Marks::of(alloc, text)?;
    with_sequences(alloc, text, &marks.styles)
}
