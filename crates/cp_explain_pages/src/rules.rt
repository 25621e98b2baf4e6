//! The page of a rule, of a fault, or of deadlocks.

use crate::pages::{DEADLOCK, FAULTS, NAME_RULES, OTHER_RULES, RulePage};

// The letters of rules and faults that have numbers.
const LETTERS: &[u8] = b"SYCIOF";

/// The words that list the rules.
pub const ALL: &str =
    "the rules are S1 to S6, Y1 to Y3, C1 to C13, I1 to I4, O1 and M, and the faults F1 to F9";

// Whether a word is the name of this rule, in small or capital letters.
fn is_name(word: &[u8], rule: &[u8]) -> bool {
    if word.len() != rule.len() {
        return false;
    }
    for i in 0..rule.len() {
        if word[i].to_ascii_uppercase() != rule[i] {
            return false;
        }
    }
    true
}

// The text of the page of these that has this name.
fn text_of(pages: &'static [RulePage], word: &[u8]) -> Option<&'static str> {
    for page in pages {
        if is_name(word, page.rule.as_bytes()) {
            return Some(page.text);
        }
    }
    None
}

// Each table is named in a function of its own: a proof that has the texts of all takes too long.
fn page_of_name_rule(word: &[u8]) -> Option<&'static str> {
    text_of(NAME_RULES.as_slice(), word)
}

fn page_of_other_rule(word: &[u8]) -> Option<&'static str> {
    text_of(OTHER_RULES.as_slice(), word)
}

fn page_of_fault(word: &[u8]) -> Option<&'static str> {
    text_of(FAULTS.as_slice(), word)
}

fn page_of_deadlocks(word: &[u8]) -> Option<&'static str> {
    if is_name(word, DEADLOCK.rule.as_bytes()) {
        Some(DEADLOCK.text)
    } else {
        None
    }
}

/// The page of `deadlock`, or of a rule or a fault such as `C4`: what it says, the reason for it, a text that breaks
/// it, and the text corrected. Returns `None` if there is no such rule.
pub fn rule_page(rule: &str) -> Option<&'static str> {
    let word = rule.as_bytes();
    if let Some(page) = page_of_name_rule(word) {
        return Some(page);
    }
    if let Some(page) = page_of_other_rule(word) {
        return Some(page);
    }
    if let Some(page) = page_of_fault(word) {
        return Some(page);
    }
    page_of_deadlocks(word)
}

fn are_digits(bytes: &[u8]) -> bool {
    for byte in bytes {
        if !byte.is_ascii_digit() {
            return false;
        }
    }
    !bytes.is_empty()
}

/// Whether a word looks like the name of a rule: one of their letters, and digits.
pub fn is_like_rule(word: &str) -> bool {
    match word.as_bytes() {
        [letter, digits @ ..] => LETTERS.contains(&letter.to_ascii_uppercase())
            && are_digits(digits),
        [] => false,
    }
}
