//! A token that is missing before a place: with it, the text can continue there.

use crate::expected::{Expected, begin_a_text, symbol_token};
use crate::front::Front;
use crate::missing_messages as m;
use cp_model::token::{Kind, Name, Symbol, Token};
use cp_output::message::Message;
use std::alloc::{AllocError, Global};

// The tokens that are often missing, in the order in which they are tried.
const OFTEN_MISSING: [(Symbol, Message); 10] = [
    (Symbol::Semicolon, m::SEMICOLON),
    (Symbol::CloseParenthesis, m::CLOSE),
    (Symbol::CloseBracket, m::CLOSE_INDEX),
    (Symbol::Then, m::THEN),
    (Symbol::Do, m::DO),
    (Symbol::Of, m::OF),
    (Symbol::Colon, m::COLON),
    (Symbol::Comma, m::COMMA),
    (Symbol::Begin, m::BEGIN),
    (Symbol::End, m::END),
];

fn copy(alloc: Global, token: &Token) -> Result<Token, AllocError> {
    let kind = match token.kind() {
        Kind::Short(word) => Kind::Short(*word),
        Kind::Long(word) => Name::of_long(alloc, word.as_slice())?.into_kind(),
        Kind::Number(value) => Kind::Number(*value),
        Kind::Character(ordinal) => Kind::Character(*ordinal),
        Kind::Symbol(symbol) => Kind::Symbol(*symbol),
    };
    Ok(Token::new(kind, token.span()))
}

// Adds a symbol, the token at the place and the one after it.
fn add(
    alloc: Global,
    tokens: &mut Vec<Token>,
    front: &Front<'_>,
    symbol: Symbol,
    at: usize,
) -> Result<(), AllocError> {
    tokens.push(symbol_token(symbol, at))?;
    for count in 0..2 {
        if let Some(token) = front.token(count) {
            tokens.push(copy(alloc, token)?)?;
        }
    }
    Ok(())
}

/// Copies of tokens. Fails only if memory runs out.
pub fn copies(alloc: Global, tokens: &[Token]) -> Result<Vec<Token>, AllocError> {
    let mut copied = Vec::new(alloc);
    for token in tokens {
        copied.push(copy(alloc, token)?)?;
    }
    Ok(copied)
}

/// The symbol that is missing after `tokens`, if one is, and the message for it.
pub fn missing(
    alloc: Global,
    tokens: &mut Vec<Token>,
    front: &Front<'_>,
    expected: &Expected,
    at: usize,
) -> Result<Option<(Symbol, Message)>, AllocError> {
    let before = tokens.len();
    for (symbol, message) in OFTEN_MISSING.as_slice() {
        if expected.has(*symbol) {
            add(alloc, tokens, front, *symbol, at)?;
            let fits = begin_a_text(alloc, tokens, at);
            tokens.truncate(before);
            if fits? {
                return Ok(Some((*symbol, *message)));
            }
        }
    }
    Ok(None)
}
