//! Where a text continues after a syntax error: at a `;`, an `end`, a routine, a `begin` or the
//! definition of a type. The outline then is that of a text without the error.

use crate::front::{is_name, is_symbol, letters};
use crate::outline::{Outline, Part};
use cp_model::token::{Kind, Symbol, Token};
use std::alloc::AllocError;

/// What has to be done before a text continues.
#[derive(Clone, Copy)]
pub enum Repair {
    /// This symbol is missing.
    Insert(Symbol),
    /// The text has ended too soon: its body is still open.
    Reopen,
    /// The text has ended too soon, and its body continues with the statement at the place.
    Continue,
    /// A `repeat` is closed by the statement with the error.
    CloseRepeat,
    /// A component is defined from the name before the place on.
    DefineComponent,
    /// The component that begins with this word has no name before it.
    NameComponent(Symbol),
    /// All tokens up to the word `coend` are skipped.
    PassCobegin,
    /// The rest of a statement or a declaration is skipped.
    Pass,
}

/// Tokens, and the number of one of them.
#[derive(Clone, Copy)]
pub struct Cursor<'t> {
    pub(crate) tokens: &'t [Token],
    pub(crate) index: usize,
}

impl<'t> Cursor<'t> {
    // The token that is `count` tokens further.
    fn after(&self, count: usize) -> Option<&'t Kind> {
        let token = self.tokens.get(self.index.saturating_add(count))?;
        Some(token.kind())
    }

    // The token that is `count` tokens before.
    fn before(&self, count: usize) -> Option<&'t Kind> {
        let token = self.tokens.get(self.index.checked_sub(count)?)?;
        Some(token.kind())
    }

    fn at(&self, index: usize) -> Cursor<'t> {
        Cursor {
            tokens: self.tokens,
            index,
        }
    }

    fn next(&self) -> Cursor<'t> {
        self.at(self.index.saturating_add(1))
    }

    // Whether a name and an `=` come next.
    fn defines(&self, count: usize) -> bool {
        is_name(self.after(count)) && is_symbol(self.after(count.saturating_add(1)), Symbol::Equal)
    }

    // Whether the definition of a component begins here.
    fn defines_component(&self) -> bool {
        self.defines(0)
            && matches!(
                self.after(2),
                Some(Kind::Symbol(Symbol::Process | Symbol::Monitor | Symbol::Class))
            )
    }

    // Whether parameters come next.
    fn is_group_next(&self) -> bool {
        is_name(self.after(1)) || is_symbol(self.after(1), Symbol::Var)
    }

    // Whether the statements from here on end as the body of a routine does.
    fn ends_routine(&self) -> bool {
        let mut depth: usize = 0;
        for index in self.index..self.tokens.len() {
            match self.tokens[index].kind() {
                Kind::Symbol(Symbol::Begin | Symbol::Case | Symbol::Cycle) => {
                    depth = depth.saturating_add(1);
                }
                Kind::Symbol(Symbol::End) if depth == 0 => {
                    return self.at(index).is_before_routine();
                }
                Kind::Symbol(Symbol::End) => depth = depth.saturating_sub(1),
                _ => {}
            }
        }
        false
    }

    // Whether a `;` and another routine or a body come next.
    fn is_before_routine(&self) -> bool {
        is_symbol(self.after(1), Symbol::Semicolon)
            && matches!(
                self.after(2),
                Some(Kind::Symbol(Symbol::Begin | Symbol::Procedure | Symbol::Function))
            )
    }

    // Whether a declaration of variables comes next.
    fn declares(&self, count: usize) -> bool {
        is_name(self.after(count))
            && matches!(
                self.after(count.saturating_add(1)),
                Some(Kind::Symbol(Symbol::Colon | Symbol::Comma))
            )
    }

    // The number after that of the next `coend`, if there is one.
    fn past_coend(&self) -> Option<usize> {
        for index in self.index..self.tokens.len() {
            let word = letters(Some(self.tokens[index].kind()));
            if word == b"coend".as_slice() || word == b"parend".as_slice() {
                return Some(index + 1);
            }
        }
        None
    }
}

impl Outline {
    /// The number of the token at which the text continues after an error, if it does. Fails only
    /// if memory runs out.
    pub fn recover(
        &mut self,
        error: Cursor<'_>,
        repair: Repair,
    ) -> Result<Option<usize>, AllocError> {
        let mut first = error.index;
        match repair {
            Repair::Insert(symbol) if symbol != Symbol::Begin || !error.ends_routine() => {
                self.add(&Kind::Symbol(symbol))?;
                return Ok(Some(first));
            }
            Repair::Reopen => self.reopen_text()?,
            Repair::Continue => {
                self.reopen_text()?;
                return Ok(Some(first));
            }
            Repair::CloseRepeat => self.close_repeat(),
            Repair::PassCobegin => first = error.past_coend().unwrap_or(first),
            Repair::DefineComponent => {
                self.begin_types()?;
                return Ok(first.checked_sub(1));
            }
            Repair::NameComponent(symbol) => {
                self.begin_types()?;
                self.begin_heading(symbol)?;
                first = first.saturating_add(1);
            }
            Repair::Insert(_) | Repair::Pass => self.reopen_component(error)?,
        }
        for index in first..error.tokens.len() {
            if let Some(next) = self.resume_at(error, error.at(index))? {
                if self.accepts(error.at(next))? {
                    return Ok(Some(next));
                }
            }
        }
        Ok(None)
    }

    // Whether the token at a place can come next.
    fn accepts(&mut self, next: Cursor<'_>) -> Result<bool, AllocError> {
        let before = self.kept.len();
        let Some(kind) = next.after(0) else {
            return Ok(false);
        };
        match kind {
            Kind::Symbol(symbol) => self.keep(*symbol)?,
            Kind::Short(_) | Kind::Long(_) => self.keep_name()?,
            _ => self.keep_number()?,
        }
        let answer = self.begins_a_text(0);
        self.kept.truncate(before);
        answer
    }

    // The number of the token at which the text continues, if it does at or after this one.
    fn resume_at(
        &mut self,
        error: Cursor<'_>,
        here: Cursor<'_>,
    ) -> Result<Option<usize>, AllocError> {
        if here.defines_component() {
            self.begin_types()?;
            return Ok(Some(here.index));
        }
        let is_error = error.index == here.index;
        match here.after(0) {
            Some(Kind::Symbol(symbol)) => self.resume_at_symbol(*symbol, is_error, here),
            Some(_) if is_error => self.resume_statement(here),
            _ => Ok(None),
        }
    }

    fn resume_at_symbol(
        &mut self,
        symbol: Symbol,
        is_error: bool,
        here: Cursor<'_>,
    ) -> Result<Option<usize>, AllocError> {
        match symbol {
            Symbol::Semicolon => self.resume_at_semicolon(here),
            Symbol::End | Symbol::Until => self.resume_at_end(symbol, is_error, here),
            Symbol::Procedure | Symbol::Function => {
                self.leave_routine()?;
                Ok(Some(here.index))
            }
            Symbol::Const | Symbol::Type => self.resume_at_definitions(is_error, here),
            Symbol::Dot if is_error => self.resume_after_dot(here),
            Symbol::Else if is_error => self.resume_at_statement(here),
            Symbol::Begin | Symbol::Var if !self.has_statements() => {
                self.resume_at_declarations(symbol, here)
            }
            Symbol::Begin | Symbol::Case | Symbol::Cycle | Symbol::Repeat
                if self.has_statements() => self.resume_at_statement(here),
            Symbol::Record if self.is_in_section() => {
                self.begin_record()?;
                Ok(Some(here.index))
            }
            _ if is_error => self.resume_statement(here),
            _ => Ok(None),
        }
    }

    // At a `;`, unless it separates parameters, or what comes after it belongs to the error.
    fn resume_at_semicolon(&mut self, here: Cursor<'_>) -> Result<Option<usize>, AllocError> {
        let is_list = self.has_statements();
        if self.part() == Some(Part::Parameters) && here.is_group_next() {
            self.complete_group()?;
            return Ok(Some(here.index));
        }
        if is_list && self.part() != Some(Part::Case) && here.declares(1) {
            return Ok(None);
        }
        let is_definition = here.defines(1) && !here.next().defines_component();
        if is_definition && !is_list && !self.is_in_section() {
            return Ok(None);
        }
        let next = if self.complete()? {
            here.index
        } else {
            here.index.saturating_add(1)
        };
        Ok(Some(next))
    }

    // At the end of a list. Elsewhere an `end` is left out.
    fn resume_at_end(
        &mut self,
        symbol: Symbol,
        is_error: bool,
        here: Cursor<'_>,
    ) -> Result<Option<usize>, AllocError> {
        if !self.has_statements() && self.part() != Some(Part::Record) {
            let after = here.index.saturating_add(1);
            return Ok(if is_error { Some(after) } else { None });
        }
        if symbol == Symbol::Until && self.part() != Some(Part::Repeat) {
            return Ok(None);
        }
        if symbol == Symbol::End {
            self.close_repeat();
        }
        self.complete()?;
        Ok(Some(here.index))
    }

    // At constants or types, where they can be.
    fn resume_at_definitions(
        &mut self,
        is_error: bool,
        here: Cursor<'_>,
    ) -> Result<Option<usize>, AllocError> {
        let is_inside = self.open.iter().any(|open| !open.part.is_section());
        if is_error && is_inside {
            return Ok(None);
        }
        self.kept.clear();
        self.open.clear();
        Ok(Some(here.index))
    }

    // After the `.` of an `end` that isn't the last.
    fn resume_after_dot(&mut self, here: Cursor<'_>) -> Result<Option<usize>, AllocError> {
        let after = here.index.saturating_add(1);
        if !is_symbol(here.before(1), Symbol::End) || here.after(1).is_none() {
            return Ok(None);
        }
        if !is_symbol(here.after(1), Symbol::Semicolon) {
            self.add(&Kind::Symbol(Symbol::Semicolon))?;
        }
        Ok(Some(after))
    }

    // At a statement, or at an `else`, after an `if`.
    fn resume_at_statement(&mut self, here: Cursor<'_>) -> Result<Option<usize>, AllocError> {
        if !self.has_statements() {
            return Ok(None);
        }
        self.complete()?;
        self.keep(Symbol::If)?;
        self.keep_number()?;
        self.keep(Symbol::Then)?;
        Ok(Some(here.index))
    }

    // At the variables or the body of a component or a routine.
    fn resume_at_declarations(
        &mut self,
        symbol: Symbol,
        here: Cursor<'_>,
    ) -> Result<Option<usize>, AllocError> {
        if symbol == Symbol::Var && self.part() == Some(Part::Parameters) {
            return Ok(None);
        }
        self.leave_declarations()?;
        Ok(Some(here.index))
    }

    // At a statement after a routine that has ended too soon.
    fn resume_statement(&mut self, here: Cursor<'_>) -> Result<Option<usize>, AllocError> {
        let is_after_body = is_symbol(here.before(1), Symbol::Semicolon)
            && is_symbol(here.before(2), Symbol::End);
        if !is_after_body || self.is_in_section() || self.has_statements() {
            return Ok(None);
        }
        self.leave_out_declarations();
        self.keep(Symbol::Procedure)?;
        self.keep_name()?;
        self.keep(Symbol::Semicolon)?;
        self.opens(Part::Routine, true)?;
        self.open_body()?;
        Ok(Some(here.index))
    }

    fn open_body(&mut self) -> Result<(), AllocError> {
        self.keep(Symbol::Begin)?;
        self.opens(Part::Begin, true)
    }

    // After the end of the text: its body is still open.
    fn reopen_text(&mut self) -> Result<(), AllocError> {
        self.kept.clear();
        self.open.clear();
        self.open_body()
    }

    // Where a statement follows a component that has ended too soon: its body is still open.
    fn reopen_component(&mut self, error: Cursor<'_>) -> Result<(), AllocError> {
        let is_after_body = is_symbol(error.before(2), Symbol::Semicolon)
            && is_symbol(error.before(3), Symbol::End);
        let is_statement = matches!(
            error.after(0),
            Some(Kind::Symbol(
                Symbol::Assign | Symbol::OpenParenthesis | Symbol::OpenBracket | Symbol::Dot
            ))
        );
        if !is_after_body || !is_statement || self.part() != Some(Part::Types) {
            return Ok(());
        }
        self.begin_types()?;
        self.begin_component()?;
        self.open_body()
    }
}
