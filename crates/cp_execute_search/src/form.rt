//! What is written of a search: what it has found, in one of the forms.

ghost use Rattle.std.specs.Prelude.{IfOk};
ghost use Rattle.cp_execute_search.specs.Searches.{IsWritten};

use crate::verdict::{SearchVerdict, word_of};
use cp_base_config::search::{SearchForm, Searching};
use cp_outcome_schedule::findings::{Findings, Subject};
use cp_outcome_schedule::object::object;
use cp_outcome_schedule::report::{GivenLimits, report};
use std::alloc::{AllocError, Global};

/// What is written of a search of a text.
///
/// # Errors
///
/// `AllocError` if memory runs out.
pub(crate) fn page_of(
    alloc: Global,
    subject: Subject<'_, '_>,
    findings: &Findings,
    verdict: SearchVerdict,
    how: Searching,
) -> Result<Vec<u8>, AllocError>
    ensures { IfOk result (λ bytes. IsWritten how.form bytes.items) }
{
    let limits = GivenLimits {
        states: how.states,
        memory: how.memory,
    };
    match how.form {
        SearchForm::Lines => report(alloc, subject, findings, limits),
        SearchForm::Json => object(alloc, subject, findings, word_of(verdict)),
    }
}
