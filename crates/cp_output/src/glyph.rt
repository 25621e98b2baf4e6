//! How an editor shows bytes: a character of UTF-8 in one column, a tab as a tab, and neither the
//! byte order mark nor a carriage return at all.

/// How the first character of some bytes is shown.
#[derive(Clone, Copy)]
pub enum Glyph {
    /// Not at all. The character has this number of bytes.
    Hidden(usize),
    /// As a tab.
    Tab,
    /// As itself, in one column. The character has this number of bytes.
    Character(usize),
    /// A byte that is no character, as `\` and two hexadecimal digits.
    Escaped,
}

impl Glyph {
    /// The number of bytes that are shown.
    pub fn bytes(self) -> usize {
        match self {
            Glyph::Hidden(count) | Glyph::Character(count) => count,
            Glyph::Tab | Glyph::Escaped => 1,
        }
    }
}

/// Whether a byte continues a character of UTF-8.
pub fn is_continuation(byte: u8) -> bool {
    0x80 <= byte && byte <= 0xbf
}

// The number of bytes of a character of UTF-8, by its first one, or 0.
fn announced(first: u8) -> usize {
    match first {
        0xc2..=0xdf => 2,
        0xe0..=0xef => 3,
        0xf0..=0xf4 => 4,
        _ => 0,
    }
}

// The number of bytes of the character of UTF-8 that begins these bytes, or 0 if none does.
fn wide(bytes: &[u8], first: u8) -> usize {
    let count = announced(first);
    if bytes.len() < count {
        return 0;
    }
    for i in 1..count {
        if !is_continuation(bytes[i]) {
            return 0;
        }
    }
    count
}

/// How the first character of these bytes is shown.
pub fn first_glyph(bytes: &[u8]) -> Glyph {
    match bytes {
        [] => Glyph::Hidden(0),
        [b'\t', ..] => Glyph::Tab,
        [b'\r', ..] => Glyph::Hidden(1),
        [0xef, 0xbb, 0xbf, ..] => Glyph::Hidden(3),
        [32..=126, ..] => Glyph::Character(1),
        [first, ..] => match wide(bytes, *first) {
            0 => Glyph::Escaped,
            count => Glyph::Character(count),
        },
    }
}
