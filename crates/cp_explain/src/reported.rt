//! The explanation of a text that has no tree, after its heading.

use cp_explain_syntax::{
    Mistake, MistakeKind, find_mistakes, of_depth, of_spelling, of_unexpected, of_unfinished,
};
use cp_frontend::refusal::{Refusal, scan_number};
use cp_output::page::Page;
use std::alloc::{AllocError, Global};

/// Explains why a text has no tree, after the heading. Fails only if memory runs out.
pub fn of_no_tree(
    alloc: Global,
    text: &[u8],
    at: usize,
    refusal: Refusal,
) -> Result<Page, AllocError> {
    let (mut page, letter, number) = match refusal {
        Refusal::Scan { cause, .. } => {
            (of_spelling(alloc, text, at, cause), "S", scan_number(cause))
        }
        Refusal::Unfinished { .. } => (of_unfinished(alloc, text, at)?, "Y", 2),
        Refusal::TooDeep { .. } => (of_depth(alloc, text, at), "Y", 3),
        _ => (of_unexpected(alloc, text, at)?, "Y", 1),
    };
    page.hint(letter, number);
    Ok(page)
}

/// The refusal that a text with only this mistake has.
pub fn refusal_of(mistake: &Mistake) -> Refusal {
    let at = mistake.at;
    match mistake.kind {
        MistakeKind::Unexpected => Refusal::Unexpected { at },
        MistakeKind::Unfinished => Refusal::Unfinished { at },
        MistakeKind::TooDeep => Refusal::TooDeep { at },
    }
}

/// The syntax errors of a text after the first one, in its order. Fails only if memory runs out.
pub fn later_mistakes(
    alloc: Global,
    text: &[u8],
    refusal: Refusal,
) -> Result<Vec<Mistake>, AllocError> {
    let mut later = Vec::new(alloc);
    if let Refusal::Unexpected { at } = refusal {
        for mistake in find_mistakes(alloc, text)? {
            if at < mistake.at {
                later.push(mistake)?;
            }
        }
    }
    Ok(later)
}
