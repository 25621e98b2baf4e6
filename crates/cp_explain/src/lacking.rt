//! What the language of the book has and this one hasn't, in a text that has no tree. It is found
//! in the bytes of the text, since a text that is refused for its spelling has no tokens.

ghost use Rattle.std.specs.Prelude.{◌≤◌, length};

use cp_output::page::Page;
use cp_output::position::Position;

/// What this language leaves out of the book's.
#[derive(Clone, Copy)]
enum Feature {
    Strings,
    Reals,
    With,
    Univ,
    Sets,
}

/// How often a feature is used, and the place of its first use.
#[derive(Clone, Copy)]
struct Uses {
    count: usize,
    first: usize,
}

/// The uses of each feature.
#[derive(Clone, Copy)]
struct Lacking {
    strings: Uses,
    reals: Uses,
    with: Uses,
    univ: Uses,
    sets: Uses,
}

/// The piece with which some bytes begin: its length, and the feature that it uses.
#[derive(Clone, Copy)]
struct Piece {
    length: usize,
    uses: Option<Feature>,
}

impl Uses {
    const NONE: Uses = Uses { count: 0, first: 0 };

    fn add(&mut self, at: usize) {
        if self.count == 0 {
            self.first = at;
        }
        self.count = self.count.saturating_add(1);
    }

    // Adds a line with these uses, if there are any.
    fn push(&self, page: &mut Page, text: &[u8], called: &str) {
        if self.count == 0 {
            return;
        }
        page.bytes(b"  ");
        page.text(called);
        page.bytes(b": ");
        page.number(self.count);
        page.text(", the first at ");
        page.position(Position::of(text, self.first));
        page.bytes(b"\n");
    }
}

// The number of digits that begin some bytes.
fn digits(bytes: &[u8]) -> usize
    ensures { result ≤ length bytes.now }
{
    for i in 0..bytes.len() {
        if !bytes[i].is_ascii_digit() {
            return i;
        }
    }
    bytes.len()
}

// The number of bytes up to this one, or all if it isn't there.
fn up_to(bytes: &[u8], last: u8) -> usize {
    for i in 0..bytes.len() {
        if bytes[i] == last {
            return i.saturating_add(1);
        }
    }
    bytes.len()
}

// The length of the character that begins these bytes inside apostrophes: a byte, or its ordinal,
// as `(:10:)`.
fn character(bytes: &[u8]) -> usize {
    match bytes {
        [b'(', b':', b'0'..=b'9', b':', b')', ..] => 5,
        [b'(', b':', b'0'..=b'9', b'0'..=b'9', b':', b')', ..] => 6,
        [
            b'(',
            b':',
            b'0'..=b'9',
            b'0'..=b'9',
            b'0'..=b'9',
            b':',
            b')',
            ..
        ] => 7,
        _ => 1,
    }
}

// The piece that begins with an apostrophe before these bytes. A string has several characters, and
// ends in its line.
fn quoted(rest: &[u8]) -> Piece {
    let mut characters: usize = 0;
    let mut next: usize = 0;
    for i in 0..rest.len() {
        if next <= i {
            match rest[i] {
                b'\n' => break,
                b'\'' => {
                    return Piece {
                        length: i.saturating_add(2),
                        uses: if 1 < characters {
                            Some(Feature::Strings)
                        } else {
                            None
                        },
                    };
                }
                _ => {}
            }
            characters = characters.saturating_add(1);
            next = i.saturating_add(character(&rest[i..]));
        }
    }
    Piece {
        length: 1,
        uses: None,
    }
}

// The length of a fraction or a scale factor that begins these bytes, or 0.
fn fraction(bytes: &[u8]) -> usize {
    match bytes {
        [b'.', rest @ ..] => match digits(rest) {
            0 => 0,
            count => count.saturating_add(1),
        },
        _ => 0,
    }
}

fn scale(bytes: &[u8]) -> usize {
    let (rest, before) = match bytes {
        [b'e' | b'E', b'+' | b'-', rest @ ..] => (rest, 2),
        [b'e' | b'E', rest @ ..] => (rest, 1),
        _ => return 0,
    };
    match digits(rest) {
        0 => 0,
        count => count.saturating_add(before),
    }
}

// The piece that begins with a digit: a real, such as `1.5` or `2e-3`, or another number.
fn number(bytes: &[u8]) -> Piece {
    let whole = digits(bytes);
    let point = whole.saturating_add(fraction(&bytes[whole..]));
    let length = point.saturating_add(scale(&bytes[point.min(bytes.len())..]));
    Piece {
        length,
        uses: if whole < length {
            Some(Feature::Reals)
        } else {
            None
        },
    }
}

fn is_of_word(byte: u8) -> bool {
    byte.is_ascii_alphanumeric() || byte == b'_'
}

// The number of letters, digits and underscores that begin some bytes.
fn word_length(bytes: &[u8]) -> usize
    ensures { result ≤ length bytes.now }
{
    for i in 0..bytes.len() {
        if !is_of_word(bytes[i]) {
            return i;
        }
    }
    bytes.len()
}

// The feature that a word names.
fn named(word: &[u8]) -> Option<Feature> {
    for (name, feature) in [
        (b"real".as_slice(), Feature::Reals),
        (b"with", Feature::With),
        (b"univ", Feature::Univ),
        (b"set", Feature::Sets),
    ] {
        if word.eq_ignore_ascii_case(name) {
            return Some(feature);
        }
    }
    None
}

fn word(bytes: &[u8]) -> Piece {
    let length = word_length(bytes);
    Piece {
        length,
        uses: named(&bytes[..length]),
    }
}

// The piece with which these bytes begin: a token, or a byte if there is none.
fn first_piece(bytes: &[u8]) -> Piece {
    match bytes {
        [b'"', rest @ ..] => Piece {
            length: up_to(rest, b'"').saturating_add(1),
            uses: None,
        },
        [b'\'', rest @ ..] => quoted(rest),
        [b'0'..=b'9', ..] => number(bytes),
        [b'a'..=b'z' | b'A'..=b'Z', ..] => word(bytes),
        _ => Piece {
            length: 1,
            uses: None,
        },
    }
}

impl Lacking {
    fn of(text: &[u8]) -> Lacking {
        let mut lacking = Lacking {
            strings: Uses::NONE,
            reals: Uses::NONE,
            with: Uses::NONE,
            univ: Uses::NONE,
            sets: Uses::NONE,
        };
        let mut next: usize = 0;
        for at in 0..text.len() {
            if next <= at {
                let piece = first_piece(&text[at..]);
                lacking.add(piece.uses, at);
                next = at.saturating_add(piece.length);
            }
        }
        lacking
    }

    fn add(&mut self, feature: Option<Feature>, at: usize) {
        match feature {
            Some(Feature::Strings) => self.strings.add(at),
            Some(Feature::Reals) => self.reals.add(at),
            Some(Feature::With) => self.with.add(at),
            Some(Feature::Univ) => self.univ.add(at),
            Some(Feature::Sets) => self.sets.add(at),
            None => {}
        }
    }

    // The uses of each feature, and what it is called.
    fn called(&self) -> [(&'static str, Uses); 5] {
        [
            ("strings", self.strings),
            ("reals", self.reals),
            ("`with`", self.with),
            ("`univ`", self.univ),
            ("sets", self.sets),
        ]
    }
}

/// Adds what a text uses of the book's language that this one hasn't: how often, and where first.
/// Comments and what is between apostrophes don't count.
pub fn push_lacking(page: &mut Page, text: &[u8]) {
    let lacking = Lacking::of(text);
    let is_used = lacking.called().iter().any(|(_, uses)| 0 < uses.count);
    page.text(if is_used {
        "Of the book's language, the text uses what this one leaves out:\n"
    } else {
        "The text uses no strings, reals, `with`, `univ` or sets.\n"
    });
    for (called, uses) in lacking.called() {
        uses.push(page, text, called);
    }
}
