//! Parsing a list of tokens into its tree.

ghost use Rattle.std.specs.Prelude.{◌≡◌, IfOk, IfErr, IfSome, IsNone};
ghost use Rattle.cp_model.specs.Grammar.{Reads};
ghost use Rattle.cp_model.specs.Syntax as s;
ghost use Rattle.cp_model.specs.View as view;
ghost use Rattle.cp_syntax.specs.Refusals.{NoTokenAt, Refused, Reports, TokenAt};

use crate::declarations::text;
use crate::refusal::SyntaxError;
use cp_model::token::Token;
use cp_model::tree::Tree;
use cp_model_grammar::{Stop, refusal_laws, text_laws};
use std::alloc::Global;

/// The largest number of levels that a text may have open at once.
const LEVELS: usize = 200;

/// Parses the tokens of a text of `len` bytes into their tree. They have at most one.
///
/// This reads each token once, from the first to the last, and looks at no token beyond the next
/// one. So if there are several reasons why the tokens have no tree, it reports the one that comes
/// first in their order.
pub fn parse(alloc: Global, tokens: &[Token], len: usize) -> Result<Tree, SyntaxError>
    ensures tree { IfOk result (λ t. Reads tokens.now (view.tree t)) }
    ensures unique { IfOk result (λ t. (u : s.Tree) → Reads tokens.now u → u ≡ view.tree t) }
    ensures refused { IfErr result (Refused tokens.now len) }
{
    text_laws();
    refusal_laws();
    match text(alloc, LEVELS, tokens) {
        Ok((tree, _)) => Ok(tree),
        Err(stop) => Err(refusal(tokens, len, stop)),
    }
}

/// The error of a text for the reason why reading stopped.
fn refusal(tokens: &[Token], len: usize, stop: Stop) -> SyntaxError
    ensures { Reports tokens.now len stop result }
{
    match stop {
        Stop::Memory => SyntaxError::Memory,
        Stop::Wrong(left) => match place_of(tokens, left) {
            Some(at) => SyntaxError::Unexpected { at },
            None => SyntaxError::Unfinished { at: len },
        },
        Stop::Deep(left) => match place_of(tokens, left) {
            Some(at) => SyntaxError::TooDeep { at },
            None => SyntaxError::Unfinished { at: len },
        },
    }
}

/// The place of the first of the last `left` tokens, if there is one.
fn place_of(tokens: &[Token], left: usize) -> Option<usize>
    ensures some { IfSome result (λ at. TokenAt tokens.now left at) }
    ensures none { IsNone result → NoTokenAt tokens.now left }
{
    let index = tokens.len().checked_sub(left)?;
    let token = tokens.get(index)?;
    Some(token.place())
}
