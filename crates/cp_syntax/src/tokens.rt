//! The next of the tokens that are left.

ghost use Rattle.std.specs.Prelude.{◌≡◌, ◌==◌, Some, None, IfSome, IsNone};
ghost use Rattle.cp_model.specs.Kinds.{kind_of};
ghost use Rattle.cp_model_grammar.specs.Kinds.{code, is_symbol, is_name};
ghost use Rattle.cp_model_grammar.specs.Reading.{kind_at, place_at, tail, Gives};
ghost use Rattle.cp_model_grammar.specs.Reading as reading;

use cp_model::token::{Kind, Symbol, Token};
use cp_model_grammar::Stop;

/// What was read and the tokens after it, or why reading stopped.
pub type Read<'a, X> = Result<(X, &'a [Token]), Stop>;

/// The place of the next token.
pub fn place(tokens: &[Token]) -> usize
    ensures { result ≡ place_at tokens.now }
{
    match tokens {
        [] => 0,
        [first, ..] => first.place(),
    }
}

/// The tokens after the next one.
pub fn after(tokens: &[Token]) -> &[Token]
    ensures { result.now ≡ tail tokens.now }
{
    match tokens {
        [] => tokens,
        [_, rest @ ..] => rest,
    }
}

/// The kind of the next token, or `None` after the last one.
pub fn peek(tokens: &[Token]) -> Option<&Kind>
    ensures some { IfSome result (λ kind. kind_at tokens.now ≡ Some (kind_of kind.now)) }
    ensures none { IsNone result → kind_at tokens.now ≡ None }
{
    let first = tokens.first()?;
    Some(first.kind())
}

/// Whether the next token is this symbol.
#[tactic(auto, unfolding(cp_model_grammar::specs::Kinds::is_symbol))]
pub fn sees(tokens: &[Token], symbol: Symbol) -> bool
    ensures { result ≡ is_symbol symbol (kind_at tokens.now) }
{
    match peek(tokens) {
        Some(Kind::Symbol(seen)) => same(*seen, symbol),
        _ => false,
    }
}

/// Whether two symbols are the same. Contracts compare their numbers.
fn same(seen: Symbol, symbol: Symbol) -> bool
    ensures { result ≡ (code seen == code symbol) }
{
    seen == symbol
}

/// Whether the next token is a name.
pub fn sees_name(tokens: &[Token]) -> bool
    ensures { result ≡ is_name (kind_at tokens.now) }
{
    matches!(peek(tokens), Some(Kind::Short(_) | Kind::Long(_)))
}

/// Takes this symbol and returns its place.
#[tactic(auto, unfolding(cp_model_grammar::specs::Reading::expect))]
pub fn expect(tokens: &[Token], symbol: Symbol) -> Read<'_, usize>
    ensures { Gives (λ at. at) result (reading.expect symbol tokens.now) }
{
    if !sees(tokens, symbol) {
        return Err(Stop::Wrong(tokens.len()));
    }
    Ok((place(tokens), after(tokens)))
}

/// Takes this symbol if it is the next token, and returns its place.
#[tactic(auto, unfolding(cp_model_grammar::specs::Reading::optional_symbol))]
pub fn optional_symbol(tokens: &[Token], symbol: Symbol) -> Read<'_, Option<usize>>
    ensures { Gives (λ at. at) result (reading.optional_symbol symbol tokens.now) }
{
    if !sees(tokens, symbol) {
        return Ok((None, tokens));
    }
    Ok((Some(place(tokens)), after(tokens)))
}
