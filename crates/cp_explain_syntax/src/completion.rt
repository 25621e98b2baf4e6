//! Outlines that are changed after a syntax error: lists whose last item is made complete, and what
//! is left so that something else can begin.

use crate::outline::{Open, Outline, Part};
use cp_model::token::{Kind, Symbol};
use std::alloc::AllocError;

impl Outline {
    pub(crate) fn begin_component(&mut self) -> Result<(), AllocError> {
        self.keep_name()?;
        self.keep(Symbol::Equal)?;
        self.keep(Symbol::Process)?;
        self.keep(Symbol::Semicolon)?;
        self.opens(Part::Component, true)
    }

    /// Begins a component with this word.
    pub(crate) fn begin_heading(&mut self, symbol: Symbol) -> Result<(), AllocError> {
        self.keep_name()?;
        self.keep(Symbol::Equal)?;
        self.keep(symbol)?;
        self.opens(Part::Component, false)
    }

    /// Makes the last group of parameters complete.
    pub(crate) fn complete_group(&mut self) -> Result<(), AllocError> {
        self.leave_out();
        self.keep_item(Symbol::Colon, Part::Parameters)
    }

    pub(crate) fn begin_types(&mut self) -> Result<(), AllocError> {
        self.kept.clear();
        self.open.clear();
        self.keep(Symbol::Type)?;
        self.opens(Part::Types, false)
    }

    // Before a record: the name and the mark of the item that it belongs to.
    pub(crate) fn begin_record(&mut self) -> Result<(), AllocError> {
        let mark = if self.part() == Some(Part::Types) {
            Symbol::Equal
        } else {
            Symbol::Colon
        };
        self.leave_out();
        self.keep_name()?;
        self.keep(mark)
    }

    // Closes each `repeat` that is open innermost.
    pub(crate) fn close_repeat(&mut self) {
        for _ in 0..self.open.len() {
            match self.innermost() {
                Some(open) if open.part == Part::Repeat => {
                    self.open.pop();
                    self.kept.truncate(open.start.saturating_sub(1));
                }
                _ => return,
            }
        }
    }

    // Makes the item of the innermost list complete. Whether a `;` can be next.
    pub(crate) fn complete(&mut self) -> Result<bool, AllocError> {
        if self.part() == Some(Part::Parameters) {
            self.open.pop();
        }
        let Some(open) = self.innermost() else {
            self.kept.clear();
            return Ok(false);
        };
        if self.is_in_heading() {
            self.complete_heading(open)?;
            return Ok(true);
        }
        self.leave_out();
        self.complete_item(open)
    }

    fn complete_heading(&mut self, open: Open) -> Result<(), AllocError> {
        self.kept.truncate(open.start);
        if open.part == Part::Routine {
            self.kept.truncate(open.start.saturating_sub(1));
            self.keep(Symbol::Procedure)?;
            self.keep_name()?;
        }
        Ok(())
    }

    fn complete_item(&mut self, open: Open) -> Result<bool, AllocError> {
        match open.part {
            Part::Constants | Part::Types => self.keep_item(Symbol::Equal, open.part)?,
            Part::Variables | Part::Record => self.keep_item(Symbol::Colon, open.part)?,
            Part::Case => self.keep_label(open)?,
            Part::Component | Part::Routine | Part::Parameters => return Ok(false),
            Part::Begin | Part::Cycle | Part::Repeat => {}
        }
        Ok(true)
    }

    // Adds a definition or a declaration.
    fn keep_item(&mut self, mark: Symbol, part: Part) -> Result<(), AllocError> {
        self.keep_name()?;
        self.keep(mark)?;
        if part == Part::Constants {
            self.keep_number()
        } else {
            self.keep_name()
        }
    }

    // Adds the label of an arm.
    fn keep_label(&mut self, open: Open) -> Result<(), AllocError> {
        if !open.is_ready {
            self.keep_number()?;
            self.keep(Symbol::Of)?;
            self.reopens(Part::Case)?;
        }
        self.keep_number()?;
        self.keep(Symbol::Colon)
    }

    // Leaves sections and headings, up to the place of variables or a body.
    pub(crate) fn leave_declarations(&mut self) -> Result<(), AllocError> {
        for _ in 0..self.open.len() {
            match self.part() {
                Some(Part::Record | Part::Parameters) => self.open.pop(),
                Some(part) if part.is_section() => self.open.pop(),
                _ => break,
            };
        }
        if self.is_in_heading() {
            self.complete()?;
            self.add(&Kind::Symbol(Symbol::Semicolon))?;
        }
        self.leave_out_declarations();
        Ok(())
    }

    // Leaves a routine, up to the place of another one. After the body of a component that is that
    // of the initial process.
    pub(crate) fn leave_routine(&mut self) -> Result<(), AllocError> {
        let mut has_body = false;
        for _ in 0..self.open.len() {
            match self.part() {
                Some(Part::Component) if !has_body => break,
                Some(Part::Routine) => has_body = false,
                Some(part) if part.has_statements() => has_body = true,
                _ => {}
            }
            self.open.pop();
        }
        self.leave_declarations()
    }
}
