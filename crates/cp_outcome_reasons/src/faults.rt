//! What a fault means, and the piece of the text that it stopped.

use crate::names::Subject;
use crate::snapshot::{ProcessSnapshot, Site};
use cp_inspect::status::fault_number;
use cp_model::state::Fault;
use cp_outcome_text::piece::{Extent, push_piece};
use cp_output::page::Page;

// What a fault means. The piece of the text is after these words.
fn words_of(fault: Fault) -> &'static str {
    match fault {
        Fault::Range => "a value out of the range of its type in ",
        Fault::Index => "an index beyond the bounds in ",
        Fault::Overflow => "arithmetic beyond -32768..32767 in ",
        Fault::DivisionByZero => "a zero divisor in ",
        Fault::QueueTaken => "a delay in a queue that has a process, ",
        Fault::NotInitialised => "a call of a component that is not initialised, ",
        Fault::InitialisedTwice => "init of a component that was initialised before, ",
        Fault::NoLabel => "a case without a label that matches ",
        Fault::NoResult => "a function without a result, ",
    }
}

// How much of the text an operation comes from, from its origin on.
fn extent_of(site: Site) -> Extent {
    match site {
        Site::Call => Extent::Call,
        Site::EndOfRoutine | Site::EndOfBody => Extent::Name,
        Site::Statement => Extent::Statement,
    }
}

impl<'t> Subject<'_, 't> {
    /// Adds a fault that stopped a process.
    pub(crate) fn push_fault(&self, page: &mut Page, process: &ProcessSnapshot, fault: Fault) {
        page.text("fault ");
        page.number(fault_number(fault) as usize);
        self.push_origin(page, process);
        page.text(": ");
        page.text(words_of(fault));
        if let Some(at) = process.at {
            push_piece(page, self.text, &self.tokens, at, extent_of(process.site));
        }
    }
}
