//! Which tokens can be at a place. Each is tried instead of what is there.

use cp_model::token::{Kind, Name, Span, Symbol, Token};
use cp_output::page::Page;
use cp_syntax::{SyntaxError, parse};
use std::alloc::{AllocError, Global};

/// After more tokens than this, none is suggested: trying them would be too slow.
const MAX_TRIED_TOKENS: usize = 4_000;

/// A token that may be at a place.
#[derive(Clone, Copy, PartialEq, Eq)]
pub enum Candidate {
    Name,
    Number,
    Character,
    Symbol(Symbol),
}

// The candidates, and what each is called, the likely ones first.
const CANDIDATES: [(Candidate, &str); 54] = [
    (Candidate::Symbol(Symbol::Semicolon), "`;`"),
    (Candidate::Symbol(Symbol::End), "`end`"),
    (Candidate::Symbol(Symbol::CloseParenthesis), "`)`"),
    (Candidate::Symbol(Symbol::Assign), "`:=`"),
    (Candidate::Symbol(Symbol::Then), "`then`"),
    (Candidate::Symbol(Symbol::Do), "`do`"),
    (Candidate::Symbol(Symbol::Of), "`of`"),
    (Candidate::Symbol(Symbol::To), "`to`"),
    (Candidate::Symbol(Symbol::Downto), "`downto`"),
    (Candidate::Symbol(Symbol::Until), "`until`"),
    (Candidate::Symbol(Symbol::CloseBracket), "`]`"),
    (Candidate::Symbol(Symbol::Colon), "`:`"),
    (Candidate::Name, "a name"),
    (Candidate::Number, "a number"),
    (Candidate::Character, "a character"),
    (Candidate::Symbol(Symbol::Begin), "`begin`"),
    (Candidate::Symbol(Symbol::Comma), "`,`"),
    (Candidate::Symbol(Symbol::Dot), "`.`"),
    (Candidate::Symbol(Symbol::DotDot), "`..`"),
    (Candidate::Symbol(Symbol::OpenParenthesis), "`(`"),
    (Candidate::Symbol(Symbol::OpenBracket), "`[`"),
    (Candidate::Symbol(Symbol::Equal), "`=`"),
    (Candidate::Symbol(Symbol::Unequal), "`<>`"),
    (Candidate::Symbol(Symbol::Less), "`<`"),
    (Candidate::Symbol(Symbol::Greater), "`>`"),
    (Candidate::Symbol(Symbol::AtMost), "`<=`"),
    (Candidate::Symbol(Symbol::AtLeast), "`>=`"),
    (Candidate::Symbol(Symbol::Plus), "`+`"),
    (Candidate::Symbol(Symbol::Minus), "`-`"),
    (Candidate::Symbol(Symbol::Star), "`*`"),
    (Candidate::Symbol(Symbol::Div), "`div`"),
    (Candidate::Symbol(Symbol::Mod), "`mod`"),
    (Candidate::Symbol(Symbol::Ampersand), "`&`"),
    (Candidate::Symbol(Symbol::Or), "`or`"),
    (Candidate::Symbol(Symbol::Not), "`not`"),
    (Candidate::Symbol(Symbol::Else), "`else`"),
    (Candidate::Symbol(Symbol::If), "`if`"),
    (Candidate::Symbol(Symbol::While), "`while`"),
    (Candidate::Symbol(Symbol::Repeat), "`repeat`"),
    (Candidate::Symbol(Symbol::For), "`for`"),
    (Candidate::Symbol(Symbol::Case), "`case`"),
    (Candidate::Symbol(Symbol::Cycle), "`cycle`"),
    (Candidate::Symbol(Symbol::Init), "`init`"),
    (Candidate::Symbol(Symbol::Var), "`var`"),
    (Candidate::Symbol(Symbol::Procedure), "`procedure`"),
    (Candidate::Symbol(Symbol::Function), "`function`"),
    (Candidate::Symbol(Symbol::Entry), "`entry`"),
    (Candidate::Symbol(Symbol::Const), "`const`"),
    (Candidate::Symbol(Symbol::Type), "`type`"),
    (Candidate::Symbol(Symbol::Process), "`process`"),
    (Candidate::Symbol(Symbol::Monitor), "`monitor`"),
    (Candidate::Symbol(Symbol::Class), "`class`"),
    (Candidate::Symbol(Symbol::Array), "`array`"),
    (Candidate::Symbol(Symbol::Record), "`record`"),
];

/// The token that a symbol is, at a place.
pub fn symbol_token(symbol: Symbol, at: usize) -> Token {
    token(Kind::Symbol(symbol), at)
}

fn token(kind: Kind, at: usize) -> Token {
    let from = u32::try_from(at).unwrap_or(u32::MAX);
    let to = from.saturating_add(1);
    Token::new(kind, Span { from, to })
}

/// Whether some text begins with these tokens. Fails only if memory runs out.
pub fn begin_a_text(alloc: Global, tokens: &[Token], at: usize) -> Result<bool, AllocError> {
    match parse(alloc, tokens, at) {
        Ok(_) | Err(SyntaxError::Unfinished { .. }) => Ok(true),
        Err(SyntaxError::Memory) => Err(AllocError),
        Err(_) => Ok(false),
    }
}

impl Candidate {
    fn kind(self, alloc: Global) -> Result<Kind, AllocError> {
        Ok(match self {
            Candidate::Name => Name::new(alloc, b"x")?.into_kind(),
            Candidate::Number => Kind::Number(1),
            Candidate::Character => Kind::Character(b'a'),
            Candidate::Symbol(symbol) => Kind::Symbol(symbol),
        })
    }
}

// Whether some text continues with this candidate after `tokens`. Adds it and removes it again.
fn can_follow(
    alloc: Global,
    tokens: &mut Vec<Token>,
    at: usize,
    candidate: Candidate,
) -> Result<bool, AllocError> {
    let kind = candidate.kind(alloc)?;
    tokens.push(token(kind, at))?;
    let answer = begin_a_text(alloc, tokens, at);
    tokens.pop();
    answer
}

/// The tokens that can be at a place.
#[derive(Drop)]
pub struct Expected {
    candidates: Vec<(Candidate, &'static str)>,
}

impl Expected {
    /// Finds the tokens that can be after these, unless they are too many. Fails only if memory
    /// runs out.
    pub fn after(
        alloc: Global,
        tokens: &mut Vec<Token>,
        at: usize,
    ) -> Result<Expected, AllocError> {
        let mut candidates = Vec::new(alloc);
        if MAX_TRIED_TOKENS < tokens.len() {
            return Ok(Expected { candidates });
        }
        for (candidate, called) in CANDIDATES.as_slice() {
            if can_follow(alloc, tokens, at, *candidate)? {
                candidates.push((*candidate, *called))?;
            }
        }
        Ok(Expected { candidates })
    }

    fn contains(&self, wanted: Candidate) -> bool {
        for (candidate, _) in &self.candidates {
            if *candidate == wanted {
                return true;
            }
        }
        false
    }

    /// Whether this symbol can be at the place.
    pub fn has(&self, symbol: Symbol) -> bool {
        self.contains(Candidate::Symbol(symbol))
    }

    /// Whether a name can be at the place.
    pub fn has_name(&self) -> bool {
        self.contains(Candidate::Name)
    }

    /// Whether a value can begin at the place.
    pub fn has_value(&self) -> bool {
        self.contains(Candidate::Number) && self.has(Symbol::OpenParenthesis)
    }

    /// Whether a statement can begin at the place.
    pub fn has_statement(&self) -> bool {
        self.has(Symbol::While)
    }

    /// Whether only a name can be at the place, or the word `entry` before one.
    pub fn is_name(&self) -> bool {
        let others = if self.has(Symbol::Entry) { 1 } else { 0 };
        self.has_name() && self.candidates.len() == 1 + others
    }

    /// Whether only this symbol can be at the place.
    pub fn is_only(&self, symbol: Symbol) -> bool {
        self.has(symbol) && self.candidates.len() == 1
    }

    /// Adds a line with the tokens that can be at the place, if they are known.
    pub fn push(&self, page: &mut Page) {
        if self.candidates.is_empty() {
            return;
        }
        let mut lead = "  Expected one of: ";
        for (_, called) in &self.candidates {
            page.text(lead);
            page.text(called);
            lead = ", ";
        }
        page.bytes(b".\n");
    }
}
