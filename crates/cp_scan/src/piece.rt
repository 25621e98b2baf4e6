//! The piece at a place of a text, a token or a separator, by its first byte. `piece` of
//! `specs/Pieces.antt` defines what is read.

ghost use Rattle.std.specs.Prelude.{◌≡◌, ◌+◌, ◌^◌, ◌<◌, ◌≤◌, false, length, drop};
ghost use Rattle.cp_model.specs.Characters as character;
ghost use Rattle.cp_scan.specs.Failures.{Takes};
ghost use Rattle.cp_scan.specs.Pieces as spec;
ghost use Rattle.cp_scan.specs.Pieces.{head_or_zero};

use crate::bytes::{is_blank, is_digit, is_letter};
use crate::characters::character;
use crate::comments::comment;
use crate::marks::mark;
use crate::numbers::number;
use crate::progress::Progress;
use crate::refusal::{Cause, ScanError};
use crate::words::read_word;
use cp_model::token::Kind;
use std::alloc::Global;

/// What a token at the front of a text holds and the number of its bytes, or the cause why no piece
/// begins there.
pub type Found<A> = Result<(A, usize), Cause>;

/// Reads the piece at the place that was reached, and continues after it.
pub fn read_piece(alloc: Global, text: &[u8], progress: &mut Progress) -> Result<(), ScanError>
    requires some { progress.old.at < length text.now }
    requires fits { length text.now < 2 ^ 32 }
    ensures { Takes result progress.old progress.new
        (spec.first_piece (drop progress.old.at text.now)) }
{
    let rest = rest_from(text, progress.at);
    let b = rest[0];
    if is_blank(b) {
        progress.pass(1);
        return Ok(());
    }
    if is_letter(b) {
        read_word(alloc, rest, progress)
    } else {
        read_other(rest, progress)
    }
}

fn rest_from(text: &[u8], at: usize) -> &[u8]
    requires { at ≤ length text.now }
    ensures { result.now ≡ drop at text.now }
{
    &text[at..]
}

// Reads the piece at the front of a text, which is neither a blank nor a word.
#[tactic(auto, unfolding(crate::specs::Pieces::piece))]
fn read_other(text: &[u8], progress: &mut Progress) -> Result<(), ScanError>
    requires some { 0 < length text.now }
    requires no_blank { character.is_blank (head_or_zero text.now) ≡ false }
    requires no_word { character.is_letter (head_or_zero text.now) ≡ false }
    requires fits { progress.old.at + length text.now < 2 ^ 32 }
    ensures { Takes result progress.old progress.new (spec.first_piece text.now) }
{
    let b = text[0];
    let rest = &text[1..];
    if is_digit(b) {
        return match number(text) {
            Ok((value, length)) => progress.append(Kind::Number(value), length),
            Err(cause) => Err(progress.refusal(cause)),
        };
    }
    match b {
        b'"' => match comment(rest) {
            Ok(length) => {
                progress.pass(length);
                Ok(())
            }
            Err(cause) => Err(progress.refusal(cause)),
        },
        b'\'' => match character(rest) {
            Ok((ordinal, length)) => progress.append(Kind::Character(ordinal), length),
            Err(cause) => Err(progress.refusal(cause)),
        },
        _ => match mark(b, rest) {
            Ok((symbol, length)) => progress.append(Kind::Symbol(symbol), length),
            Err(cause) => Err(progress.refusal(cause)),
        },
    }
}
