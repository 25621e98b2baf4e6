//! Marks: the longest that fits is read. `Spelling` of cp_model defines their spellings. `mark` and
//! `longer_mark` of `specs/Pieces.antt` find them by the first byte and the one after it.

ghost use Rattle.std.specs.Prelude.{◌≡◌};
ghost use Rattle.cp_model.specs.Tokens as plain;
ghost use Rattle.cp_scan.specs.Fronts.{token_piece};
ghost use Rattle.cp_scan.specs.Pieces as spec;
ghost use Rattle.cp_scan.specs.Pieces.{head_or_zero};

use crate::bytes::byte_at;
use crate::piece::Found;
use crate::refusal::Cause;
use cp_model::token::Symbol;

fn one(symbol: Symbol) -> Found<Symbol>
    ensures { token_piece plain.Symbol result ≡ spec.one symbol }
{
    Ok((symbol, 1))
}

fn two(symbol: Symbol) -> Found<Symbol>
    ensures { token_piece plain.Symbol result ≡ spec.two symbol }
{
    Ok((symbol, 2))
}

// Reads a mark that starts like a longer one. The byte after `b` is `c`, or `c` is 0 at the end of
// the text.
#[tactic(auto, unfolding(crate::specs::Pieces::longer_mark))]
fn longer_mark(byte: u8, second: u8) -> Found<Symbol>
    ensures { token_piece plain.Symbol result ≡ spec.longer_mark byte second }
{
    match (byte, second) {
        (b'<', b'=') => two(Symbol::AtMost),
        (b'<', b'>') => two(Symbol::Unequal),
        (b'<', _) => one(Symbol::Less),
        (b'>', b'=') => two(Symbol::AtLeast),
        (b'>', _) => one(Symbol::Greater),
        (b':', b'=') => two(Symbol::Assign),
        (b':', _) => one(Symbol::Colon),
        (b'.', b'.') => two(Symbol::DotDot),
        (b'.', b')') => two(Symbol::CloseBracket),
        (b'.', _) => one(Symbol::Dot),
        (b'(', b'.') => two(Symbol::OpenBracket),
        (b'(', _) => one(Symbol::OpenParenthesis),
        _ => Err(Cause::Byte),
    }
}

/// Reads the mark that begins with `b`. The text after `b` is `rest`.
#[tactic(auto, unfolding(crate::specs::Pieces::mark))]
pub fn mark(byte: u8, rest: &[u8]) -> Found<Symbol>
    ensures { token_piece plain.Symbol result ≡ spec.mark byte (head_or_zero rest.now) }
{
    match byte {
        b'+' => one(Symbol::Plus),
        b'-' => one(Symbol::Minus),
        b'*' => one(Symbol::Star),
        b'&' => one(Symbol::Ampersand),
        b'=' => one(Symbol::Equal),
        b')' => one(Symbol::CloseParenthesis),
        b'[' => one(Symbol::OpenBracket),
        b']' => one(Symbol::CloseBracket),
        b',' => one(Symbol::Comma),
        b';' => one(Symbol::Semicolon),
        _ => longer_mark(byte, byte_at(rest, 0)),
    }
}
