//! Numbers up to 32767, in decimal digits. Above that the computed value stops growing, so any
//! number of digits can be read. `number` of `specs/Pieces.antt` defines what is read.

ghost use Rattle.std.specs.Prelude.{◌≡◌, ◌≤◌, min};
ghost use Rattle.cp_model.specs.Characters.{decimal_value};
ghost use Rattle.cp_model.specs.Tokens as plain;
ghost use Rattle.cp_scan.specs.Fronts.{token_piece};
ghost use Rattle.cp_scan.specs.Pieces as spec;

use crate::bytes::digit_count;
use crate::piece::Found;
use crate::refusal::Cause;
use cp_model::ordinals::LAST_INTEGER;

// The largest number that a text may contain.
const MAX_NUMBER: u32 = LAST_INTEGER as u32;

/// The value of decimal digits, or 32768 if it is larger.
pub fn capped_value(digits: &[u8]) -> u32
    ensures { result ≡ min (decimal_value digits.now) 32768 }
{
    let mut value: u32 = 0;
    for b in digits {
        let digit = u32::from(b.saturating_sub(b'0'));
        value = (10 * value + digit).min(MAX_NUMBER + 1);
    }
    value
}

/// Reads the number at the front of a text.
#[tactic(auto, unfolding(crate::specs::Pieces::number))]
pub fn number(text: &[u8]) -> Found<u16>
    ensures { token_piece plain.Number result ≡ spec.number text.now }
{
    let n = digit_count(text);
    let value = capped_value(&text[..n]);
    if value > MAX_NUMBER {
        return Err(Cause::Number);
    }
    Ok((value as u16, n))
}
