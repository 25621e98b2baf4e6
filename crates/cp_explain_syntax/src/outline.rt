//! What is open at a place, and fewer tokens that leave the parser in the same state.
//!
//! Where an item of a list can be, it doesn't matter how many were before it. So all but the last
//! one of each open list are left out, and all of a body that is complete. That holds for
//! statements, arms, fields, definitions, declarations and routines. Names are kept as `x`.

use crate::expected::begin_a_text;
use cp_model::token::{Kind, Name, Span, Symbol, Token};
use std::alloc::{AllocError, Global};

/// What can be open.
#[derive(Clone, Copy, PartialEq, Eq)]
pub enum Part {
    Constants,
    Types,
    Variables,
    /// A system type, from its first word to the end of its body.
    Component,
    /// A routine, from its first word to the end of its body.
    Routine,
    /// The parameters of a component or a routine.
    Parameters,
    Begin,
    Case,
    Cycle,
    Repeat,
    Record,
}

/// What is open, and its list.
#[derive(Clone, Copy)]
pub struct Open {
    pub(crate) part: Part,
    // How many of the kept tokens are before the first item.
    pub(crate) start: usize,
    // Whether a `case` has its `of`, a heading its `;`, and a section a complete item.
    pub(crate) is_ready: bool,
}

/// What is open after some tokens, and the tokens that are kept of them.
#[derive(Drop)]
pub struct Outline {
    pub(crate) alloc: Global,
    pub(crate) kept: Vec<Token>,
    pub(crate) open: Vec<Open>,
    // Where the last token was that was added.
    span: Span,
}

impl Part {
    /// Whether this is a list of definitions or declarations.
    pub fn is_section(self) -> bool {
        matches!(self, Part::Constants | Part::Types | Part::Variables)
    }

    /// Whether statements can be in this list.
    pub fn has_statements(self) -> bool {
        matches!(self, Part::Begin | Part::Case | Part::Cycle | Part::Repeat)
    }

    // Whether an `end` or an `until` closes it.
    fn is_closed_by_word(self) -> bool {
        self.has_statements() || self == Part::Record
    }

    // Whether this has a heading and a body.
    fn has_heading(self) -> bool {
        matches!(self, Part::Component | Part::Routine)
    }
}

impl Outline {
    /// The outline of no tokens.
    pub fn new(alloc: Global) -> Outline {
        Outline {
            alloc,
            kept: Vec::new(alloc),
            open: Vec::new(alloc),
            span: Span { from: 0, to: 0 },
        }
    }

    /// Adds each of these tokens. Fails only if memory runs out.
    pub fn feed(&mut self, tokens: &[Token]) -> Result<(), AllocError> {
        for token in tokens {
            self.span = token.span();
            self.add(token.kind())?;
        }
        Ok(())
    }

    /// Whether some text begins with the kept tokens. Fails only if memory runs out.
    pub fn begins_a_text(&self, at: usize) -> Result<bool, AllocError> {
        begin_a_text(self.alloc, &self.kept, at)
    }

    /// What is open innermost.
    pub fn innermost(&self) -> Option<Open> {
        self.open.last().copied()
    }

    /// The innermost part that is open.
    pub fn part(&self) -> Option<Part> {
        Some(self.innermost()?.part)
    }

    /// Whether the innermost list is one of statements.
    pub fn has_statements(&self) -> bool {
        match self.part() {
            Some(part) => part.has_statements(),
            None => false,
        }
    }

    // Whether the heading of what is open innermost isn't complete.
    pub(crate) fn is_in_heading(&self) -> bool {
        match self.innermost() {
            Some(open) => open.part.has_heading() && !open.is_ready,
            None => false,
        }
    }

    // Whether what is open innermost has a heading.
    fn is_in_body(&self) -> bool {
        match self.part() {
            Some(part) => part.has_heading(),
            None => false,
        }
    }

    pub(crate) fn is_in_section(&self) -> bool {
        match self.part() {
            Some(part) => part.is_section(),
            None => false,
        }
    }

    /// Adds a symbol, without what it means.
    pub(crate) fn keep(&mut self, symbol: Symbol) -> Result<(), AllocError> {
        self.keep_kind(Kind::Symbol(symbol))
    }

    /// Adds a name, without what it means.
    pub(crate) fn keep_name(&mut self) -> Result<(), AllocError> {
        let kind = Name::new(self.alloc, b"x")?.into_kind();
        self.keep_kind(kind)
    }

    /// Adds the number 1, without what it means.
    pub(crate) fn keep_number(&mut self) -> Result<(), AllocError> {
        self.keep_kind(Kind::Number(1))
    }

    fn keep_kind(&mut self, kind: Kind) -> Result<(), AllocError> {
        self.kept.push(Token::new(kind, self.span))?;
        Ok(())
    }

    /// Opens a part, whose first item comes next.
    pub(crate) fn opens(&mut self, part: Part, is_ready: bool) -> Result<(), AllocError> {
        self.open.push(Open {
            part,
            start: self.kept.len(),
            is_ready,
        })?;
        Ok(())
    }

    /// Replaces what is open innermost: its first item comes next.
    pub(crate) fn reopens(&mut self, part: Part) -> Result<(), AllocError> {
        self.open.pop();
        self.opens(part, true)
    }

    /// Leaves out the items of the innermost list.
    pub(crate) fn leave_out(&mut self) {
        if let Some(open) = self.open.last() {
            self.kept.truncate(open.start);
        }
    }

    /// Closes a section that is open innermost.
    pub(crate) fn close_section(&mut self) {
        if self.is_in_section() {
            self.open.pop();
        }
    }

    /// Leaves out the declarations that are complete, where another one can be.
    pub(crate) fn leave_out_declarations(&mut self) {
        match self.open.last() {
            Some(open) if open.part.has_heading() && open.is_ready => {
                self.kept.truncate(open.start);
            }
            None => self.kept.clear(),
            _ => {}
        }
    }

    /// Adds what a token is. Fails only if memory runs out.
    pub fn add(&mut self, kind: &Kind) -> Result<(), AllocError> {
        match kind {
            Kind::Symbol(symbol) => self.add_symbol(*symbol),
            Kind::Short(_) | Kind::Long(_) => {
                self.begin_item();
                self.keep_name()
            }
            Kind::Number(_) => self.keep_number(),
            Kind::Character(_) => self.keep_kind(Kind::Character(b'a')),
        }
    }

    // Before a name: leaves out the items before the one that it begins.
    fn begin_item(&mut self) {
        if let Some(open) = self.innermost() {
            if open.part.is_section() && open.is_ready {
                self.kept.truncate(open.start);
                self.change(Open {
                    is_ready: false,
                    ..open
                });
            }
        }
    }

    // Changes what is open innermost.
    fn change(&mut self, changed: Open) {
        let last = self.open.len().saturating_sub(1);
        if let Some(open) = self.open.get_mut(last) {
            *open = changed;
        }
    }

    fn add_symbol(&mut self, symbol: Symbol) -> Result<(), AllocError> {
        match symbol {
            Symbol::Const => self.section(symbol, Part::Constants),
            Symbol::Type => self.section(symbol, Part::Types),
            Symbol::Var if self.part() != Some(Part::Parameters) => {
                self.section(symbol, Part::Variables)
            }
            Symbol::Procedure | Symbol::Function | Symbol::Begin => self.body_or_routine(symbol),
            Symbol::End | Symbol::Until => self.close(symbol),
            Symbol::Semicolon => {
                self.keep(symbol)?;
                self.separate();
                Ok(())
            }
            _ => self.other_symbol(symbol),
        }
    }

    fn other_symbol(&mut self, symbol: Symbol) -> Result<(), AllocError> {
        self.keep(symbol)?;
        match symbol {
            Symbol::Process | Symbol::Monitor | Symbol::Class => {
                self.opens(Part::Component, false)
            }
            Symbol::Case => self.opens(Part::Case, false),
            Symbol::Cycle => self.opens(Part::Cycle, true),
            Symbol::Repeat => self.opens(Part::Repeat, true),
            Symbol::Record => self.opens(Part::Record, true),
            Symbol::OpenParenthesis if self.is_in_heading() => self.opens(Part::Parameters, true),
            Symbol::CloseParenthesis if self.part() == Some(Part::Parameters) => {
                self.open.pop();
                Ok(())
            }
            Symbol::Of if self.part() == Some(Part::Case) => self.begin_arms(),
            _ => Ok(()),
        }
    }

    // After the `of` of a `case` its list begins.
    fn begin_arms(&mut self) -> Result<(), AllocError> {
        match self.innermost() {
            Some(open) if !open.is_ready => self.reopens(Part::Case),
            _ => Ok(()),
        }
    }

    fn section(&mut self, symbol: Symbol, part: Part) -> Result<(), AllocError> {
        self.close_section();
        self.leave_out_declarations();
        self.keep(symbol)?;
        self.opens(part, false)
    }

    // A routine, a body, or statements between `begin` and `end`.
    fn body_or_routine(&mut self, symbol: Symbol) -> Result<(), AllocError> {
        self.close_section();
        self.leave_out_declarations();
        self.keep(symbol)?;
        if symbol == Symbol::Begin {
            self.opens(Part::Begin, true)
        } else {
            self.opens(Part::Routine, false)
        }
    }

    // Closes a list, and what its body belongs to.
    fn close(&mut self, symbol: Symbol) -> Result<(), AllocError> {
        let closed = self.innermost();
        if let Some(open) = closed {
            if open.part.is_closed_by_word() {
                self.open.pop();
                if matches!(open.part, Part::Begin | Part::Cycle | Part::Repeat) {
                    self.kept.truncate(open.start);
                }
            }
        }
        self.keep(symbol)?;
        if self.is_in_body() {
            self.open.pop();
        }
        Ok(())
    }

    // After a `;`.
    fn separate(&mut self) {
        let Some(open) = self.innermost() else {
            return;
        };
        let is_list = open.is_ready && open.part.is_closed_by_word();
        if open.part.is_section() {
            self.change(Open {
                is_ready: true,
                ..open
            });
        } else if self.is_in_heading() {
            let start = self.kept.len();
            self.change(Open {
                start,
                is_ready: true,
                ..open
            });
        } else if is_list {
            self.kept.truncate(open.start);
        }
    }
}
