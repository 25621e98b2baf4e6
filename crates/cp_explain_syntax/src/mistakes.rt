//! All syntax errors of a text that has tokens, each where a reader would see it.

use crate::outline::Outline;
use crate::recovery::Cursor;
use crate::repair::copies;
use crate::syntax::{count_before, explain_unexpected, explain_unfinished, of_depth};
use cp_model::token::Token;
use cp_output::page::Page;
use cp_scan::scan;
use cp_syntax::{SyntaxError, parse};
use std::alloc::{AllocError, Global};

/// The most errors that are reported.
const MAX_MISTAKES: usize = 20;

/// What kind of syntax error a mistake is.
#[derive(Clone, Copy)]
pub enum MistakeKind {
    Unexpected,
    Unfinished,
    TooDeep,
}

/// A syntax error: its place, and its explanation after the heading.
#[derive(Drop)]
pub struct Mistake {
    pub kind: MistakeKind,
    pub at: usize,
    pub page: Page,
}

// The tokens that are left: those of an outline, and all from `next` on.
fn rest(
    alloc: Global,
    outline: &Outline,
    tokens: Vec<Token>,
    next: usize,
) -> Result<Vec<Token>, AllocError> {
    let mut joined = copies(alloc, &outline.kept)?;
    let mut index: usize = 0;
    for token in tokens {
        if next <= index {
            joined.push(token)?;
        }
        index = index.saturating_add(1);
    }
    Ok(joined)
}

// The tokens from one number to another, as far as they are there.
fn between(tokens: &[Token], from: usize, to: usize) -> &[Token] {
    let to = to.min(tokens.len());
    &tokens[from.min(to)..to]
}

// What comes after a token that is unexpected.
#[derive(Drop)]
struct Step {
    mistake: Mistake,
    next: Option<usize>,
}

// Explains the token at a place, and finds where the text continues. The first `fed` tokens are
// those of the outline.
fn take_step(
    alloc: Global,
    text: &[u8],
    tokens: &[Token],
    outline: &mut Outline,
    fed: usize,
    at: usize,
) -> Result<Step, AllocError> {
    let index = count_before(tokens, at);
    outline.feed(between(tokens, fed, index))?;
    let is_known = outline.begins_a_text(at)?;
    let explained = explain_unexpected(alloc, text, tokens, outline, at)?;
    let next = if is_known {
        outline.recover(Cursor { tokens, index }, explained.repair)?
    } else {
        None
    };
    Ok(Step {
        mistake: Mistake {
            kind: MistakeKind::Unexpected,
            at,
            page: explained.page,
        },
        next,
    })
}

// The last error of a text: after one of these kinds the search ends.
fn last_mistake(
    alloc: Global,
    text: &[u8],
    tokens: &[Token],
    error: SyntaxError,
) -> Result<Option<Mistake>, AllocError> {
    Ok(match error {
        SyntaxError::Unfinished { at } => Some(Mistake {
            kind: MistakeKind::Unfinished,
            at,
            page: explain_unfinished(alloc, text, tokens, at)?.page,
        }),
        SyntaxError::TooDeep { at } => Some(Mistake {
            kind: MistakeKind::TooDeep,
            at,
            page: of_depth(alloc, text, at),
        }),
        _ => None,
    })
}

/// The syntax errors of a text, in its order, as far as it has tokens. None follows from another.
/// Fails only if memory runs out.
pub fn find_mistakes(alloc: Global, text: &[u8]) -> Result<Vec<Mistake>, AllocError> {
    let mut tokens = scan(alloc, text).map_err(|_| AllocError)?;
    let mut outline = Outline::new(alloc);
    let mut fed: usize = 0;
    let mut found = Vec::new(alloc);
    for _ in 0..MAX_MISTAKES {
        let at = match parse(alloc, &tokens, text.len()) {
            Ok(_) => break,
            Err(SyntaxError::Memory) => return Err(AllocError),
            Err(SyntaxError::Unexpected { at }) => at,
            Err(error) => {
                if let Some(mistake) = last_mistake(alloc, text, &tokens, error)? {
                    found.push(mistake)?;
                }
                break;
            }
        };
        let Step { mistake, next } = take_step(alloc, text, &tokens, &mut outline, fed, at)?;
        found.push(mistake)?;
        let Some(next) = next else {
            break;
        };
        tokens = rest(alloc, &outline, tokens, next)?;
        fed = outline.kept.len();
    }
    Ok(found)
}
