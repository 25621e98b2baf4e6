//! The tokens around a place.

use cp_model::token::{Kind, Symbol, Token};

// The words with which statements begin. A `begin` may be that of another text.
const STATEMENT_WORDS: [Symbol; 7] = [
    Symbol::If,
    Symbol::While,
    Symbol::Repeat,
    Symbol::For,
    Symbol::Case,
    Symbol::Cycle,
    Symbol::Init,
];

// What follows a name with which a statement begins.
const AFTER_STATEMENT_NAMES: [Symbol; 6] = [
    Symbol::Assign,
    Symbol::Dot,
    Symbol::OpenParenthesis,
    Symbol::OpenBracket,
    Symbol::Semicolon,
    Symbol::End,
];

/// The tokens of a text, and the number of the one at the place. After the last token it is their
/// count.
#[derive(Clone, Copy)]
pub struct Front<'t> {
    pub(crate) text: &'t [u8],
    pub(crate) tokens: &'t [Token],
    pub(crate) index: usize,
}

/// Whether a token is this symbol.
pub fn is_symbol(kind: Option<&Kind>, symbol: Symbol) -> bool {
    match kind {
        Some(Kind::Symbol(seen)) => *seen == symbol,
        _ => false,
    }
}

/// Whether a token is a name.
pub fn is_name(kind: Option<&Kind>) -> bool {
    matches!(kind, Some(Kind::Short(_) | Kind::Long(_)))
}

/// Whether a token is a number.
pub fn is_number(kind: Option<&Kind>) -> bool {
    matches!(kind, Some(Kind::Number(_)))
}

/// The letters of a name, or none if a token isn't one.
pub fn letters<'t>(kind: Option<&'t Kind>) -> &'t [u8] {
    match kind {
        Some(kind) => kind.letters(),
        None => b"",
    }
}

/// The bytes of a text from one place to another, as far as it has them.
pub fn part(text: &[u8], from: usize, to: usize) -> &[u8] {
    let to = to.min(text.len());
    &text[from.min(to)..to]
}

impl<'t> Front<'t> {
    /// The token that is `count` tokens after the one at the place.
    pub fn token(&self, count: usize) -> Option<&'t Token> {
        self.tokens.get(self.index.saturating_add(count))
    }

    /// What is `count` tokens after the place, which is its own token if `count` is 0.
    pub fn after(&self, count: usize) -> Option<&'t Kind> {
        Some(self.token(count)?.kind())
    }

    /// What is `count` tokens before the place.
    pub fn before(&self, count: usize) -> Option<&'t Kind> {
        let token = self.tokens.get(self.index.checked_sub(count)?)?;
        Some(token.kind())
    }

    /// Whether the token at the place is this symbol.
    pub fn is_here(&self, symbol: Symbol) -> bool {
        is_symbol(self.after(0), symbol)
    }

    /// Whether the next token is this symbol.
    pub fn is_next(&self, symbol: Symbol) -> bool {
        is_symbol(self.after(1), symbol)
    }

    /// Whether the token before the place is this symbol.
    pub fn follows(&self, symbol: Symbol) -> bool {
        is_symbol(self.before(1), symbol)
    }

    /// The spelling of the token at the place.
    pub fn spelling(&self) -> Option<&'t [u8]> {
        let token = self.token(0)?;
        Some(part(self.text, token.place(), token.end()))
    }

    /// Whether a comment is between the token before the place and the one at it.
    pub fn follows_comment(&self) -> bool {
        let from = match self.index.checked_sub(1) {
            Some(number) => self.end_of(number),
            None => 0,
        };
        let to = match self.token(0) {
            Some(token) => token.place(),
            None => self.text.len(),
        };
        part(self.text, from, to).contains(&b'"')
    }

    /// Whether the place is in the line of the token before it.
    pub fn is_in_line(&self) -> bool {
        let from = match self.index.checked_sub(1) {
            Some(number) => self.end_of(number),
            None => 0,
        };
        let to = match self.token(0) {
            Some(token) => token.place(),
            None => self.text.len(),
        };
        !part(self.text, from, to).contains(&b'\n')
    }

    /// Whether a type with this name is defined before the place.
    pub fn defines(&self, name: &[u8]) -> bool {
        let front = self.tokens.iter().take(self.index);
        for (token, next) in front.zip(self.tokens.iter().skip(1)) {
            if is_symbol(Some(next.kind()), Symbol::Equal) && token.kind().letters() == name {
                return true;
            }
        }
        false
    }

    /// The name beside the place: the one before it, or else the one after it.
    pub fn neighbour(&self) -> Option<&'t [u8]> {
        for kind in [self.before(1), self.after(1)] {
            if is_name(kind) {
                return Some(letters(kind));
            }
        }
        None
    }

    // Whether a statement begins at the place. A name with `=`, `:` or `,` after it may be declared.
    fn begins_statement(&self) -> bool {
        match self.after(0) {
            Some(Kind::Symbol(symbol)) => STATEMENT_WORDS.contains(symbol),
            Some(Kind::Short(_) | Kind::Long(_)) => match self.after(1) {
                Some(Kind::Symbol(symbol)) => AFTER_STATEMENT_NAMES.contains(symbol),
                _ => false,
            },
            _ => false,
        }
    }

    /// Whether the text is complete before the place: only its last `end` is followed by a `.`.
    pub fn is_past_text(&self) -> bool {
        self.follows(Symbol::Dot) && is_symbol(self.before(2), Symbol::End)
    }

    /// Whether the text is complete before the place, but its body continues with a statement there,
    /// and ends once more.
    pub fn continues_body(&self) -> bool {
        let ends = match self.tokens {
            [.., end, dot] => is_symbol(Some(end.kind()), Symbol::End)
                && is_symbol(Some(dot.kind()), Symbol::Dot),
            _ => false,
        };
        ends && self.is_past_text() && self.begins_statement()
    }

    // The place after the token with this number.
    fn end_of(&self, number: usize) -> usize {
        match self.tokens.get(number) {
            Some(token) => token.end(),
            None => 0,
        }
    }
}
