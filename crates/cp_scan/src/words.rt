//! Words in lower case: reserved words, according to the table in `Spelling` of cp_model, and
//! names. `word` of `specs/Pieces.antt` defines what is read.

ghost use Rattle.std.specs.Prelude.{◌≡◌, ◌+◌, ◌^◌, ◌<◌, ◌≤◌, ◌∷◌, ℕ, List, Ok, Some, map, length, take};
ghost use Rattle.cp_model.specs.Characters.{lower};
ghost use Rattle.cp_model.specs.Spelling as spelling;
ghost use Rattle.cp_scan.specs.Failures.{Takes};
ghost use Rattle.cp_scan.specs.Pieces as spec;
ghost use Rattle.cp_scan.specs.Words.{IsFront, kind_or_name};

use crate::bytes::word_length;
use crate::progress::Progress;
use crate::refusal::{Cause, ScanError};
use cp_model::short::{FRONT, MAX_SHORT_BYTES, ShortWord};
use cp_model::token::{Kind, Name, Symbol};
use std::alloc::Global;

// The largest number of letters, digits and underscores in a word.
const MAX_WORD_BYTES: usize = 64;

// The reserved words that begin with each letter, in lower case.
const WITH_A: [(&[u8], Symbol); 1] = [(b"array", Symbol::Array)];

const WITH_B: [(&[u8], Symbol); 1] = [(b"begin", Symbol::Begin)];

const WITH_C: [(&[u8], Symbol); 4] = [
    (b"case", Symbol::Case),
    (b"class", Symbol::Class),
    (b"const", Symbol::Const),
    (b"cycle", Symbol::Cycle),
];

const WITH_D: [(&[u8], Symbol); 3] = [
    (b"div", Symbol::Div),
    (b"do", Symbol::Do),
    (b"downto", Symbol::Downto),
];

const WITH_E: [(&[u8], Symbol); 3] = [
    (b"else", Symbol::Else),
    (b"end", Symbol::End),
    (b"entry", Symbol::Entry),
];

const WITH_F: [(&[u8], Symbol); 2] = [(b"for", Symbol::For), (b"function", Symbol::Function)];

const WITH_I: [(&[u8], Symbol); 3] = [
    (b"if", Symbol::If),
    (b"in", Symbol::In),
    (b"init", Symbol::Init),
];

const WITH_M: [(&[u8], Symbol); 2] = [(b"mod", Symbol::Mod), (b"monitor", Symbol::Monitor)];

const WITH_N: [(&[u8], Symbol); 1] = [(b"not", Symbol::Not)];

const WITH_O: [(&[u8], Symbol); 2] = [(b"of", Symbol::Of), (b"or", Symbol::Or)];

const WITH_P: [(&[u8], Symbol); 3] = [
    (b"procedure", Symbol::Procedure),
    (b"process", Symbol::Process),
    (b"program", Symbol::Program),
];

const WITH_R: [(&[u8], Symbol); 2] = [(b"record", Symbol::Record), (b"repeat", Symbol::Repeat)];

const WITH_S: [(&[u8], Symbol); 1] = [(b"set", Symbol::Set)];

const WITH_T: [(&[u8], Symbol); 3] = [
    (b"then", Symbol::Then),
    (b"to", Symbol::To),
    (b"type", Symbol::Type),
];

const WITH_U: [(&[u8], Symbol); 2] = [(b"univ", Symbol::Univ), (b"until", Symbol::Until)];

const WITH_V: [(&[u8], Symbol); 1] = [(b"var", Symbol::Var)];

const WITH_W: [(&[u8], Symbol); 2] = [(b"while", Symbol::While), (b"with", Symbol::With)];

// The symbol of the word in the table that is spelled like this.
fn look_up(table: &[(&[u8], Symbol)], letters: &[u8]) -> Option<Symbol>
    ensures { kind_or_name result letters.now ≡ spelling.word_among
        (map (λ w. (w.0.now, w.1)) table.now) letters.now }
{
    for (word, symbol) in table {
        if *word == letters {
            return Some(*symbol);
        }
    }
    None
}

// The symbol of the reserved word that is spelled like this, whose first letter is `first`.
fn reserved(first: u8, letters: &[u8]) -> Option<Symbol>
    ensures { (rest : List ℕ) → letters.now ≡ first ∷ rest
        → kind_or_name result letters.now ≡ spelling.kind_of_word letters.now }
{
    match first {
        b'a' => look_up(&WITH_A, letters),
        b'b' => look_up(&WITH_B, letters),
        b'c' => look_up(&WITH_C, letters),
        b'd' => look_up(&WITH_D, letters),
        b'e' => look_up(&WITH_E, letters),
        b'f' => look_up(&WITH_F, letters),
        b'i' => look_up(&WITH_I, letters),
        b'm' => look_up(&WITH_M, letters),
        b'n' => look_up(&WITH_N, letters),
        b'o' => look_up(&WITH_O, letters),
        b'p' => look_up(&WITH_P, letters),
        b'r' => look_up(&WITH_R, letters),
        b's' => look_up(&WITH_S, letters),
        b't' => look_up(&WITH_T, letters),
        b'u' => look_up(&WITH_U, letters),
        b'v' => look_up(&WITH_V, letters),
        b'w' => look_up(&WITH_W, letters),
        _ => None,
    }
}

// The symbol of the reserved word that is spelled like this.
fn reserved_word(letters: &[u8]) -> Option<Symbol>
    ensures { kind_or_name result letters.now ≡ spelling.kind_of_word letters.now }
{
    match letters {
        [] => None,
        [first, ..] => reserved(*first, letters),
    }
}

// The letters at the front of a text that is long enough, in lower case.
fn lower_front(text: &[u8]) -> [u8; FRONT]
    requires { FRONT ≤ length text.now }
    ensures { take FRONT result ≡ map lower (take FRONT text.now) }
{
    let mut letters = [0; FRONT];
    for i in 0..FRONT {
        letters[i] = text[i].to_ascii_lowercase();
    }
    letters
}

// The letters of a short text in lower case.
fn lower_end(text: &[u8]) -> [u8; FRONT]
    requires { length text.now < FRONT }
    ensures { take (length text.now) result ≡ map lower text.now }
{
    let mut letters = [0; FRONT];
    for i in 0..text.len() {
        letters[i] = text[i].to_ascii_lowercase();
    }
    letters
}

// The letters at the front of a text in lower case, with room for any short word.
fn front_in_lower_case(text: &[u8]) -> [u8; FRONT]
    ensures { IsFront text.now result }
{
    // Converting this many letters at once takes no longer than converting one.
    if FRONT <= text.len() {
        lower_front(text)
    } else {
        lower_end(text)
    }
}

// Reads a word of more letters than a short one has.
fn read_long_word(alloc: Global, word: &[u8], progress: &mut Progress) -> Result<(), ScanError>
    requires { progress.old.at + length word.now < 2 ^ 32 }
    ensures { Takes result progress.old progress.new
        (Ok (Some (spelling.kind_of_word (map lower word.now)), length word.now)) }
{
    let name = Name::new(alloc, word)?;
    match reserved_word(name.as_bytes()) {
        Some(symbol) => progress.append(Kind::Symbol(symbol), word.len()),
        None => progress.append(name.into_kind(), word.len()),
    }
}

/// Reads the word at the front of a text, and continues after it.
#[tactic(auto, unfolding(crate::specs::Pieces::word))]
pub fn read_word(alloc: Global, text: &[u8], progress: &mut Progress) -> Result<(), ScanError>
    requires { progress.old.at + length text.now < 2 ^ 32 }
    ensures { Takes result progress.old progress.new (spec.word text.now) }
{
    let n = word_length(text);
    if n > MAX_WORD_BYTES {
        return Err(progress.refusal(Cause::Word));
    }
    if n > MAX_SHORT_BYTES {
        return read_long_word(alloc, &text[..n], progress);
    }
    let letters = front_in_lower_case(text);
    match reserved_word(&letters[..n]) {
        Some(symbol) => progress.append(Kind::Symbol(symbol), n),
        None => progress.append(Kind::Short(ShortWord::of_front(&letters, n)), n),
    }
}
