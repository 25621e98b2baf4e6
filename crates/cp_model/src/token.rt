//! Tokens: the words, numbers, character constants and marks that a text is made of.
//!
//! Which tokens a text has is defined in `specs/Spelling.antt` and described in docs/language.md,
//! "Tokens".

ghost use Rattle.std.specs.Prelude.{◌≡◌, IfOk, map};
ghost use Rattle.cp_model.specs.Characters.{lower};
ghost use Rattle.cp_model.specs.Kinds.{kind_of, letters_of, short_bytes};
ghost use Rattle.cp_model.specs.Tokens as plain;

use crate::short::{MAX_SHORT_BYTES, ShortWord};
use std::alloc::{AllocError, Global};
use std::marker::Model;

// Nearly all names are short, and a text has up to half a million, so these need no allocation.
#[derive(Drop)]
enum Letters {
    Short(ShortWord),
    Long(Box<Vec<u8>>),
}

/// A name: a word in lower case that, in the tokens of a text, isn't reserved. It takes 16 bytes.
/// Contracts see it as the list of its bytes.
pub struct Name {
    letters: Letters,
}

// A derived `Drop` would make proofs slower (docs/CI.md).
impl Drop for Name {
    fn drop(self) {
        let Name { letters: _ } = self;
    }
}

impl Model for Name {
    ghost use Rattle.std.specs.Prelude.{ℕ, List};
    ghost use Rattle.cp_model.specs.Kinds.{bytes_of};

    ghost Value = { List ℕ };

    ghost view = { λ name. bytes_of name.letters };
}

impl Name {
    /// The name that these letters, digits and underscores spell in lower case. Fails only if
    /// memory runs out.
    pub fn new(alloc: Global, word: &[u8]) -> Result<Name, AllocError>
        ensures { IfOk result (λ name. name ≡ map lower word.now) }
    {
        let letters = if word.len() <= MAX_SHORT_BYTES {
            Letters::Short(ShortWord::in_lower_case(word))
        } else {
            Letters::Long(Box::new(alloc, word.to_ascii_lowercase(alloc)?)?)
        };
        Ok(Name { letters })
    }

    /// The bytes of the name.
    pub fn as_bytes(&self) -> &[u8]
        ensures { result.now ≡ self.now }
    {
        match &self.letters {
            Letters::Short(word) => word.as_bytes(),
            Letters::Long(word) => word.as_slice(),
        }
    }

    /// The name of a short word.
    #[inline(always)]
    pub fn of_short(word: &ShortWord) -> Name
        ensures { result ≡ short_bytes word.now }
    {
        Name {
            letters: Letters::Short(*word),
        }
    }

    /// A name of letters that are in lower case, in an allocation of its own. Fails only if memory
    /// runs out.
    pub fn of_long(alloc: Global, letters: &[u8]) -> Result<Name, AllocError>
        ensures { IfOk result (λ name. name ≡ letters.now) }
    {
        let word = Box::new(alloc, Vec::from_slice(alloc, letters)?)?;
        Ok(Name {
            letters: Letters::Long(word),
        })
    }

    /// The kind of token that the name is.
    #[inline(always)]
    pub fn into_kind(self) -> Kind
        ensures { kind_of result ≡ plain.Name self }
    {
        let Name { letters } = self;
        match letters {
            Letters::Short(word) => Kind::Short(word),
            Letters::Long(word) => Kind::Long(word),
        }
    }
}

/// The bytes of a text that spell a token: from byte `from` up to, but not including, byte `to`,
/// counted from 0.
#[derive(Clone, Copy)]
pub struct Span {
    pub from: u32,
    pub to: u32,
}

/// A reserved word or a mark. `(.` is read as `[`, and `.)` as `]`.
#[derive(Clone, Copy, Debug, PartialEq, Eq)]
pub enum Symbol {
    Array,
    Begin,
    Case,
    Class,
    Const,
    Cycle,
    Div,
    Do,
    Downto,
    Else,
    End,
    Entry,
    For,
    Function,
    If,
    In,
    Init,
    Mod,
    Monitor,
    Not,
    Of,
    Or,
    Procedure,
    Process,
    Program,
    Record,
    Repeat,
    Set,
    Then,
    To,
    Type,
    Univ,
    Until,
    Var,
    While,
    With,
    Plus,
    Minus,
    Star,
    Ampersand,
    Equal,
    Unequal,
    Less,
    Greater,
    AtMost,
    AtLeast,
    OpenParenthesis,
    CloseParenthesis,
    OpenBracket,
    CloseBracket,
    Comma,
    Semicolon,
    Colon,
    Assign,
    Dot,
    DotDot,
}

/// What a token is. The variants for names hold the letters and not a [`Name`], so that a token
/// takes 24 bytes. Contracts see a kind of `specs/Tokens.antt`, which has one variant for names.
#[derive(Drop)]
pub enum Kind {
    /// A name of at most 14 letters.
    Short(ShortWord),
    /// A longer name.
    Long(Box<Vec<u8>>),
    /// At most 32767 in the tokens of a text.
    Number(u16),
    /// The ordinal of a character constant, at most 127 in the tokens of a text.
    Character(u8),
    Symbol(Symbol),
}

impl Kind {
    /// The letters of a name, or none if the token isn't one.
    pub fn letters(&self) -> &[u8]
        ensures { result.now ≡ letters_of (kind_of self.now) }
    {
        match self {
            Kind::Short(word) => word.as_bytes(),
            Kind::Long(word) => word.as_slice(),
            _ => &[],
        }
    }
}

/// A token and its span in the text. Contracts see it as a token of `specs/Tokens.antt`.
#[derive(Drop)]
pub struct Token {
    kind: Kind,
    span: Span,
}

impl Model for Token {
    ghost Value = { plain.Token };

    ghost view = { λ token. record { kind = kind_of token.kind; span = token.span } };
}

impl Token {
    /// A token of this kind, with these bytes of the text.
    #[inline(always)]
    pub fn new(kind: Kind, span: Span) -> Token
        ensures kind { result.kind ≡ kind_of kind }
        ensures span { result.span ≡ span }
    {
        Token { kind, span }
    }

    /// What the token is.
    #[inline(always)]
    pub fn kind(&self) -> &Kind
        ensures { kind_of result.now ≡ self.now.kind }
    {
        &self.kind
    }

    /// The bytes of the text that spell the token.
    pub fn span(&self) -> Span
        ensures { result ≡ self.now.span }
    {
        self.span
    }

    /// The place of the token's first byte.
    #[inline(always)]
    pub fn place(&self) -> usize
        ensures { result ≡ self.now.span.from }
    {
        self.span.from as usize
    }

    /// The place after the token's last byte.
    pub fn end(&self) -> usize
        ensures { result ≡ self.now.span.to }
    {
        self.span.to as usize
    }
}
