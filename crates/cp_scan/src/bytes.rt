//! The bytes of a text: which of them begin or continue a word, a number or a comment. `Characters`
//! of cp_model defines the sorts.

ghost use Rattle.std.specs.Prelude.{◌≡◌, ◌≤◌, ◌<◌, drop, length, not};
ghost use Rattle.cp_model.specs.Characters as character;
ghost use Rattle.cp_scan.specs.Pieces.{run, head_or_zero};

/// The byte that begins and ends a comment.
pub const QUOTE: u8 = b'"';

/// The byte that begins and ends a character constant.
pub const APOSTROPHE: u8 = b'\'';

/// A tab, a line feed, a carriage return or a space.
pub fn is_blank(byte: u8) -> bool
    ensures { result ≡ character.is_blank byte }
{
    matches!(byte, b'\t' | b'\n' | b'\r' | b' ')
}

/// A decimal digit.
pub fn is_digit(byte: u8) -> bool
    ensures { result ≡ character.is_digit byte }
{
    byte.is_ascii_digit()
}

/// A letter, in upper or lower case.
pub fn is_letter(byte: u8) -> bool
    ensures { result ≡ character.is_letter byte }
{
    byte.is_ascii_alphabetic()
}

/// A letter, a digit or an underscore: a byte that continues a word.
pub fn is_in_word(byte: u8) -> bool
    ensures { result ≡ character.is_in_word byte }
{
    // Most are letters. LLVM would try them last if these were three operands of `||`.
    if is_letter(byte) {
        return true;
    }
    is_digit(byte) || byte == b'_'
}

/// A byte that can represent itself in a character constant, or the apostrophe.
pub fn is_printable(byte: u8) -> bool
    ensures { result ≡ character.is_printable byte }
{
    matches!(byte, b' '..=b'~')
}

/// The byte at an index, or 0 after the end.
pub fn byte_at(text: &[u8], i: usize) -> u8
    ensures value { result ≡ head_or_zero (drop i text.now) }
    ensures within { 0 < result → i < length text.now }
{
    if i < text.len() { text[i] } else { 0 }
}

/// The number of bytes at the front that continue a word.
pub fn word_length(text: &[u8]) -> usize
    ensures run { result ≡ run character.is_in_word text.now }
    ensures within { result ≤ length text.now }
{
    let mut n = 0;
    while n < text.len() && is_in_word(text[n]) {
        n += 1;
    }
    n
}

/// The number of bytes at the front that are digits.
pub fn digit_count(text: &[u8]) -> usize
    ensures run { result ≡ run character.is_digit text.now }
    ensures within { result ≤ length text.now }
{
    let mut n = 0;
    while n < text.len() && is_digit(text[n]) {
        n += 1;
    }
    n
}

/// The number of bytes before the first `"`.
pub fn length_before_quote(text: &[u8]) -> usize
    ensures run { result ≡ run (λ b. not (character.is_quote b)) text.now }
    ensures within { result ≤ length text.now }
{
    let mut n = 0;
    while n < text.len() && text[n] != QUOTE {
        n += 1;
    }
    n
}
