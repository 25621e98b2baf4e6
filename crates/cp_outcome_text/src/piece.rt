//! Pieces of a text: the tokens of a statement, a call or a name, on one line.

ghost use Rattle.std.specs.Prelude.{◌≤◌, ◌<◌, IfSome, length};

use cp_model::token::{Kind, Symbol, Token};
use cp_output::page::Page;

/// The largest number of bytes that is shown of a piece. The rest is cut off.
const WIDTH: usize = 48;

/// How far a piece reaches from its first token.
#[derive(Clone, Copy)]
pub enum Extent {
    /// To the end of a statement, or of the expression or `for` that `then`, `do` or `of` ends.
    Statement,
    /// To the end of a routine or component with its arguments.
    Call,
    /// One token.
    Name,
}

// Reads a piece, token by token.
#[derive(Drop)]
struct Reader {
    extent: Extent,
    /// How many brackets and parentheses are open.
    depth: usize,
    /// Whether the token before is a dot.
    is_after_dot: bool,
}

// Whether a token ends a statement, or the expression or `for` before a statement.
fn ends_statement(kind: &Kind) -> bool {
    matches!(
        kind,
        Kind::Symbol(
            Symbol::Semicolon
                | Symbol::End
                | Symbol::Else
                | Symbol::Until
                | Symbol::Then
                | Symbol::Do
                | Symbol::Of
        )
    )
}

impl Reader {
    // Whether the next token is part of a call.
    fn takes_in_call(&mut self, kind: &Kind) -> bool {
        let is_after_dot = self.is_after_dot;
        self.is_after_dot = matches!(kind, Kind::Symbol(Symbol::Dot));
        match kind {
            Kind::Symbol(Symbol::OpenParenthesis | Symbol::OpenBracket) => {
                self.depth = self.depth.saturating_add(1);
                true
            }
            Kind::Symbol(Symbol::CloseParenthesis | Symbol::CloseBracket) => {
                let is_open = 0 < self.depth;
                self.depth = self.depth.saturating_sub(1);
                is_open
            }
            _ => 0 < self.depth || is_after_dot || self.is_after_dot,
        }
    }

    // Whether the next token is part of the piece.
    fn takes(&mut self, kind: &Kind) -> bool {
        match self.extent {
            Extent::Statement => !ends_statement(kind),
            Extent::Call => self.takes_in_call(kind),
            Extent::Name => false,
        }
    }
}

// The index of the token that begins at a place, if there is one.
fn token_at(tokens: &[Token], at: usize) -> Option<usize>
    ensures { IfSome result (λ i. i < length tokens.now) }
{
    for i in 0..tokens.len() {
        if tokens[i].place() == at {
            return Some(i);
        }
    }
    None
}

// The number of tokens of the piece that these tokens begin with.
fn piece_length(tokens: &[Token], extent: Extent) -> usize
    ensures { result ≤ length tokens.now }
{
    let mut reader = Reader {
        extent,
        depth: 0,
        is_after_dot: false,
    };
    for i in 1..tokens.len() {
        if !reader.takes(tokens[i].kind()) {
            return i;
        }
    }
    tokens.len()
}

// The bytes of a text that spell a token.
fn spelling<'t>(text: &'t [u8], token: &Token) -> &'t [u8] {
    let to = token.end().min(text.len());
    &text[token.place().min(to)..to]
}

// Adds a piece. If something is between two tokens, one blank is between them in the piece.
fn push_tokens(page: &mut Page, text: &[u8], tokens: &[Token]) {
    let mut shown: usize = 0;
    let mut end = match tokens.first() {
        Some(token) => token.place(),
        None => 0,
    };
    for token in tokens {
        let spelled = spelling(text, token);
        let blanks = if end < token.place() { 1 } else { 0 };
        shown = shown.saturating_add(blanks).saturating_add(spelled.len());
        if WIDTH < shown {
            page.text(" ...");
            return;
        }
        page.blanks(blanks);
        page.bytes(spelled);
        end = token.end();
    }
}

/// Adds the piece of a text that begins at a place, between backquotes. These are the tokens of the
/// text.
pub fn push_piece(page: &mut Page, text: &[u8], tokens: &[Token], at: usize, extent: Extent) {
    if let Some(first) = token_at(tokens, at) {
        let rest = &tokens[first..];
        page.text("`");
        push_tokens(page, text, &rest[..piece_length(rest, extent)]);
        page.text("`");
    }
}
