//! All violations of a text that has a tree, in short.

use crate::explain::{Source, heading_of};
use cp_explain_rules::of_violation_in_short;
use cp_frontend::refusal::Refusal;
use cp_model::rules::Violation;
use cp_output::page::Page;
use cp_rules::text::violations;
use std::alloc::{AllocError, Global};

/// The most violations that are reported.
const MAX_VIOLATIONS: usize = 1_000;

/// The most bytes that are read to find what is at each place: each time the whole text is.
const MAX_WALKED_BYTES: usize = 67_108_864;

/// The most violations of a text that are reported: fewer for a long text, which takes longer.
pub(crate) fn most(text: &[u8]) -> usize {
    (MAX_WALKED_BYTES / text.len().max(1)).min(MAX_VIOLATIONS)
}

// Adds the commands that say more.
fn push_hint(page: &mut Page, file: &[u8], list: &[Violation]) {
    let Some(first) = list.first() else {
        return;
    };
    let number = usize::from(first.rule.number());
    page.text("`cpm explain C");
    page.number(number);
    page.text("` explains rule C");
    page.number(number);
    page.text(", and `cpm explain ");
    page.bytes(file);
    page.text("` how to fix the first violation.\n");
}

// Adds how many violations there are, and how many of them are reported.
fn push_count(page: &mut Page, count: usize, reported: usize) {
    page.number(count);
    page.text(if count == 1 {
        " violation"
    } else {
        " violations"
    });
    if reported < count {
        page.text(", and the first ");
        page.number(reported);
        page.text(" are shown");
    }
    page.bytes(b"\n");
}

/// All violations of a text in short, in the order of the text, and their number. The first comes
/// without its heading. Fails only if memory runs out.
pub(crate) fn of_all(alloc: Global, source: &Source<'_>) -> Result<Vec<u8>, AllocError> {
    let mut page = Page::new(alloc);
    let Source {
        key,
        file,
        text,
        tree,
    } = *source;
    let list = violations(alloc, key, tree)?;
    let reported = most(text).min(list.len());
    let mut is_first = true;
    for violation in list.iter().take(reported) {
        if !is_first {
            page.bytes(&heading_of(alloc, file, text, &Refusal::from(*violation))?);
        }
        page.bytes(&of_violation_in_short(alloc, key, text, tree, *violation)?);
        is_first = false;
    }
    push_hint(&mut page, file, &list);
    push_count(&mut page, list.len(), reported);
    page.finish()
}
