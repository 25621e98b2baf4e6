//! Why the tokens of a text have no tree.

use crate::context::Opened;
use crate::expected::Expected;
use crate::front::{Front, is_symbol, letters};
use crate::habits::type_of_word;
use crate::marks::foreign_habit_of_mark;
use crate::messages as m;
use crate::missing_messages::{DEEP, EMPTY, END, NO_DOT, UNEXPECTED, UNFINISHED};
use crate::outline::Outline;
use crate::recovery::Repair;
use crate::repair::{copies, missing};
use crate::words::{foreign_habit_of_name, foreign_habit_of_value, foreign_habit_of_word};
use cp_model::token::{Kind, Symbol, Token};
use cp_output::message::{About, Message};
use cp_output::page::Page;
use cp_output::position::Position;
use cp_scan::scan;
use std::alloc::{AllocError, Global};

/// The tokens one of which is often missing.
const OFTEN: [(Symbol, &str); 3] = [
    (Symbol::Semicolon, "`;`"),
    (Symbol::End, "`end`"),
    (Symbol::CloseParenthesis, "`)`"),
];

/// The number of tokens before a place.
pub(crate) fn count_before(tokens: &[Token], at: usize) -> usize {
    tokens.iter().filter(|token| token.place() < at).count()
}

// The first `count` tokens, or all if there are fewer.
fn first(tokens: &[Token], count: usize) -> &[Token] {
    &tokens[..count.min(tokens.len())]
}

// The tokens of a text that has tokens.
fn tokens_of(alloc: Global, text: &[u8]) -> Result<Vec<Token>, AllocError> {
    scan(alloc, text).map_err(|_| AllocError)
}

// Tokens that leave the parser in the same state as all of these, whose outline is known.
fn state_after(
    alloc: Global,
    tokens: &[Token],
    outline: &Outline,
    at: usize,
) -> Result<Vec<Token>, AllocError> {
    if outline.begins_a_text(at)? {
        copies(alloc, &outline.kept)
    } else {
        copies(alloc, tokens)
    }
}

// What is meant by the token at a place, if a habit of another language explains it.
fn habit(front: &Front<'_>, expected: &Expected) -> Option<Message> {
    if expected.is_only(Symbol::Dot) {
        let is_last = front.token(1).is_none() && front.is_here(Symbol::Semicolon);
        return Some(if is_last { m::LAST_DOT } else { m::ENDED });
    }
    if front.is_past_text() {
        return Some(m::PAST_DOT);
    }
    if expected.has_value() && front.follows_comment() {
        return Some(m::QUOTES);
    }
    match front.after(0) {
        Some(Kind::Symbol(symbol)) => match foreign_habit_of_mark(front, expected, *symbol) {
            Some(message) => Some(message),
            None => foreign_habit_of_word(front, expected, *symbol),
        },
        Some(Kind::Short(_) | Kind::Long(_)) => foreign_habit_of_name(front, expected),
        Some(_) => foreign_habit_of_value(front, expected),
        None => None,
    }
}

// The word that opened what is still open, where something begins that can only follow its `end`.
fn missing_end(front: &Front<'_>, expected: &Expected) -> Option<Opened> {
    let can_close = expected.has(Symbol::End) || expected.has_statement();
    let begins = match front.after(0) {
        Some(Kind::Symbol(Symbol::Equal)) => {
            front.begins_component() && !expected.is_only(Symbol::Equal)
        }
        _ if !can_close => false,
        Some(Kind::Symbol(Symbol::Procedure | Symbol::Function)) => true,
        Some(Kind::Symbol(Symbol::Dot)) => {
            front.follows(Symbol::End) && front.token(1).is_none()
        }
        _ => false,
    };
    if begins { front.opened() } else { None }
}

// The word that opened something, as it is written.
fn word_of(opened: Opened) -> &'static str {
    match opened.word {
        Symbol::Case => "case",
        Symbol::Cycle => "cycle",
        Symbol::Record => "record",
        Symbol::Repeat => "repeat",
        _ => "begin",
    }
}

// Adds which word is still open, and where it is.
fn push_opened(page: &mut Page, text: &[u8], opened: Opened) {
    page.text(": the ");
    page.quoted(word_of(opened).as_bytes());
    page.text(" at ");
    page.position(Position::of(text, opened.at));
    page.text(" is still open");
}

// Adds what is often missing, of what can be at the place.
fn push_often(page: &mut Page, expected: &Expected) {
    let mut lead = " Often a ";
    for (symbol, called) in OFTEN.as_slice() {
        if expected.has(*symbol) {
            page.text(lead);
            page.text(called);
            lead = " or ";
        }
    }
    page.text(if lead == " or " { " is missing." } else { "" });
}

// The name beside a place, or the type that it means.
fn neighbour<'t>(front: &Front<'t>) -> Option<&'t [u8]> {
    let name = front.neighbour()?;
    match type_of_word(name) {
        Some(meant) => Some(meant),
        None => Some(name),
    }
}

// What is meant by a token: the message, what is still open if that is why, and what has to be done
// before the text continues.
#[derive(Clone, Copy)]
struct Meant {
    message: Option<Message>,
    opened: Option<Opened>,
    repair: Repair,
}

impl Meant {
    fn plain(message: Option<Message>, repair: Repair) -> Meant {
        Meant {
            message,
            opened: None,
            repair,
        }
    }
}

// What has to be done after a habit of another language.
fn repair_after(front: &Front<'_>, expected: &Expected, message: Message) -> Repair {
    if expected.is_only(Symbol::Dot) {
        Repair::Reopen
    } else if front.continues_body() {
        Repair::Continue
    } else if let Some(symbol) = front.component_word() {
        Repair::NameComponent(symbol)
    } else if message.head == m::COBEGIN.head {
        Repair::PassCobegin
    } else if message.head == m::REPEAT_UNTIL.head {
        Repair::CloseRepeat
    } else {
        Repair::Pass
    }
}

// What is meant by the token at a place, if the tokens before it are as good as `state`.
fn find_meant(
    alloc: Global,
    state: &mut Vec<Token>,
    front: &Front<'_>,
    expected: &Expected,
    at: usize,
) -> Result<Meant, AllocError> {
    let opened = missing_end(front, expected);
    if opened.is_some() {
        return Ok(Meant {
            message: Some(END),
            opened,
            repair: if front.is_here(Symbol::Equal) {
                Repair::DefineComponent
            } else {
                Repair::Pass
            },
        });
    }
    if let Some(message) = habit(front, expected) {
        let repair = repair_after(front, expected, message);
        return Ok(Meant::plain(Some(message), repair));
    }
    Ok(match missing(alloc, state, front, expected, at)? {
        Some((symbol, message)) => Meant::plain(Some(message), Repair::Insert(symbol)),
        None => Meant::plain(None, Repair::Pass),
    })
}

// Explains the token at a place.
fn push_unexpected(
    page: &mut Page,
    front: &Front<'_>,
    at: usize,
    meant: Meant,
    expected: &Expected,
) {
    let about = About {
        name: front.spelling(),
        other: neighbour(front),
    };
    let Meant {
        message,
        opened,
        ..
    } = meant;
    page.template("unexpected `$`", about);
    let reported = message.unwrap_or(UNEXPECTED);
    if message.is_some() {
        page.text(": ");
    }
    page.template(reported.head, about);
    if let Some(opened) = opened {
        push_opened(page, front.text, opened);
    }
    page.place_and_advice(front.text, at, reported.advice, about);
    if message.is_none() {
        push_often(page, expected);
    }
    page.bytes(b"\n");
}

/// The explanation of a syntax error, after the heading: without the tokens that can be there, which
/// are `expected`.
#[derive(Drop)]
pub struct Explained {
    pub(crate) page: Page,
    pub(crate) expected: Expected,
    pub(crate) repair: Repair,
}

impl Explained {
    // The page, with the tokens that can be at the place.
    fn whole(self) -> Page {
        let Explained { page, expected, .. } = self;
        let mut page = page;
        expected.push(&mut page);
        page
    }
}

/// Explains a token that no text has at its place. The outline is that of the tokens before it.
/// Fails only if memory runs out.
pub fn explain_unexpected(
    alloc: Global,
    text: &[u8],
    tokens: &[Token],
    outline: &Outline,
    at: usize,
) -> Result<Explained, AllocError> {
    let index = count_before(tokens, at);
    let front = Front {
        text,
        tokens,
        index,
    };
    let mut state = state_after(alloc, first(tokens, index), outline, at)?;
    let expected = Expected::after(alloc, &mut state, at)?;
    let meant = find_meant(alloc, &mut state, &front, &expected, at)?;
    let mut page = Page::new(alloc);
    push_unexpected(&mut page, &front, at, meant, &expected);
    Ok(Explained {
        page,
        expected,
        repair: meant.repair,
    })
}

/// Explains a token that no text has at its place, after the heading, without the hint. Fails only
/// if memory runs out.
pub fn of_unexpected(alloc: Global, text: &[u8], at: usize) -> Result<Page, AllocError> {
    let tokens = tokens_of(alloc, text)?;
    let mut outline = Outline::new(alloc);
    outline.feed(first(&tokens, count_before(&tokens, at)))?;
    Ok(explain_unexpected(alloc, text, &tokens, &outline, at)?.whole())
}

fn of_end(tokens: &[Token], expected: &Expected) -> Message {
    let last = tokens.last().map(|token| token.kind());
    if last.is_none() {
        EMPTY
    } else if is_symbol(last, Symbol::End) && expected.is_only(Symbol::Dot) {
        NO_DOT
    } else {
        UNFINISHED
    }
}

/// Explains a text that ends too soon after these tokens. Fails only if memory runs out.
pub fn explain_unfinished(
    alloc: Global,
    text: &[u8],
    tokens: &[Token],
    at: usize,
) -> Result<Explained, AllocError> {
    let mut outline = Outline::new(alloc);
    outline.feed(tokens)?;
    let mut state = state_after(alloc, tokens, &outline, at)?;
    let expected = Expected::after(alloc, &mut state, at)?;
    let front = Front {
        text,
        tokens,
        index: tokens.len(),
    };
    let message = of_end(tokens, &expected);
    let mut page = Page::new(alloc);
    page.text(message.head);
    if let Some(opened) = front.opened() {
        push_opened(&mut page, text, opened);
    }
    page.place_and_advice(text, at, message.advice, About::NOTHING);
    page.bytes(b"\n");
    Ok(Explained {
        page,
        expected,
        repair: Repair::Pass,
    })
}

/// Explains a text that ends too soon, after the heading, without the hint. Fails only if memory
/// runs out.
pub fn of_unfinished(alloc: Global, text: &[u8], at: usize) -> Result<Page, AllocError> {
    let tokens = tokens_of(alloc, text)?;
    Ok(explain_unfinished(alloc, text, &tokens, at)?.whole())
}

/// Explains a text that is nested too deeply, after the heading, without the hint.
pub fn of_depth(alloc: Global, text: &[u8], at: usize) -> Page {
    let mut page = Page::new(alloc);
    page.message(text, at, DEEP, About::NOTHING);
    page
}
