//! Character constants: a character between apostrophes, or its ordinal between `'(:` and `:)'`.
//! `character` and `coded_character` of `specs/Pieces.antt` define what is read.

ghost use Rattle.std.specs.Prelude.{◌≡◌};
ghost use Rattle.cp_model.specs.Tokens as plain;
ghost use Rattle.cp_scan.specs.Fronts.{token_piece};
ghost use Rattle.cp_scan.specs.Pieces as spec;

use crate::bytes::{APOSTROPHE, byte_at, digit_count, is_printable};
use crate::numbers::capped_value;
use crate::piece::Found;
use crate::refusal::Cause;
use cp_model::ordinals::LAST_CHARACTER;

// Reads the rest of a character constant that gives an ordinal. The text before `rest` ends with
// its `'(:`.
#[tactic(auto, unfolding(crate::specs::Pieces::coded_character))]
fn character_by_ordinal(rest: &[u8]) -> Found<u8>
    ensures { token_piece plain.Character result ≡ spec.coded_character rest.now }
{
    let n = digit_count(rest);
    let value = capped_value(&rest[..n]);
    let behind = &rest[n..];
    let is_closed = byte_at(behind, 0) == b':'
        && byte_at(behind, 1) == b')'
        && byte_at(behind, 2) == APOSTROPHE;
    if 1 <= n && n <= 3 && value <= u32::from(LAST_CHARACTER) && is_closed {
        Ok((value as u8, n + 6))
    } else {
        Err(Cause::Character)
    }
}

/// Reads the rest of a character constant. The text before `rest` ends with its opening apostrophe.
#[tactic(auto, unfolding(crate::specs::Pieces::character))]
pub fn character(rest: &[u8]) -> Found<u8>
    ensures { token_piece plain.Character result ≡ spec.character rest.now }
{
    let b = byte_at(rest, 0);
    let c = byte_at(rest, 1);
    if c == APOSTROPHE && is_printable(b) && b != APOSTROPHE {
        Ok((b, 3))
    } else if b == b'(' && c == b':' {
        character_by_ordinal(&rest[2..])
    } else {
        Err(Cause::Character)
    }
}
