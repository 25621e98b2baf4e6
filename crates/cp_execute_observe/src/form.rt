//! What is written of a run that ends when nothing can move: its outcome in one of the forms.

ghost use Rattle.std.specs.Prelude.{IfOk};
ghost use Rattle.cp_output.specs.Json.{IsJsonLine};
ghost use Rattle.cp_execute_observe.specs.Forms.{IsOutcomeOf};
ghost use Rattle.cp_base_config.specs.declared.outcome.OutcomeForm.TheVariants as forms;

use crate::snapshot::snapshot_of;
use cp_base_config::outcome::OutcomeForm;
use cp_base_config::turn::Turn;
use cp_frontend::sources::AcceptedText;
use cp_inspect::component_table::ComponentTable;
use cp_outcome::outcome::{outcome, word_of};
use cp_outcome::several::transcripts;
use cp_outcome::verdict::Verdict;
use cp_outcome_reasons::loops::Loop;
use cp_outcome_reasons::names::Source;
use cp_outcome_reasons::object::object;
use cp_outcome_reasons::reasons::reasons;
use cp_outcome_reasons::servers::without_servers;
use cp_outcome_reasons::waits::waits;
use cp_outcome_variables::variables::{Variable, Variables, variables_of};
use cp_rounds::machine::Machine;
use std::alloc::{AllocError, Global};

// The report of a machine with the verdict on it and the reasons for that, a state that came again,
// and these variables. It ends with the servers that would have to be named, if there are none, for
// the verdict to be `ended`.
fn report_with_reasons(
    alloc: Global,
    source: Source<'_, '_>,
    machine: &Machine,
    verdict: Verdict,
    found: Option<&Loop>,
    shown: &[Variable],
) -> Result<Vec<u8>, AllocError>
    ensures { IfOk result (λ bytes. IsOutcomeOf forms.Verdict machine.now verdict bytes.items) }
{
    let mut reasons = reasons(alloc, source, found, shown)?;
    reasons.extend_from_slice(&without_servers(alloc, source)?)?;
    outcome(alloc, machine, verdict, &reasons)
}

// The outcome of a machine with this verdict as a JSON object on a line.
fn object_of(
    alloc: Global,
    source: Source<'_, '_>,
    verdict: Verdict,
    turn: Turn,
    found: Option<&Loop>,
    variables: &Variables,
) -> Result<Vec<u8>, AllocError>
    ensures { IfOk result (λ bytes. IsJsonLine bytes.items) }
{
    object(
        alloc,
        source,
        str::from_utf8(word_of(verdict)).unwrap_or(""),
        turn.steps(),
        found,
        variables,
    )
}

// The variables of a machine that runs the program of a text: those with these names, and for an
// object those of all monitors.
fn variables(
    alloc: Global,
    text: &AcceptedText,
    machine: &Machine,
    form: OutcomeForm<&[u32]>,
    show: &[&str],
) -> Result<Variables, AllocError> {
    variables_of(
        alloc,
        text.key,
        ComponentTable::of(alloc, machine.tables())?,
        &text.tree,
        machine,
        show,
        matches!(form, OutcomeForm::Json),
    )
}

/// What is written of a machine that runs the program of a text by turns, and of the verdict on it,
/// with a state that came again, and the variables that have names in `show`.
/// The servers, by their numbers, may wait forever.
///
/// # Errors
///
/// `AllocError` if memory runs out.
pub(crate) fn reported<'t>(
    alloc: Global,
    text: &'t AcceptedText,
    machine: &Machine<'_, 't>,
    servers: &[u32],
    verdict: Verdict,
    turn: Turn,
    form: OutcomeForm<&[u32]>,
    found: Option<&Loop>,
    show: &[&str],
) -> Result<Vec<u8>, AllocError>
    ensures { IfOk result (λ bytes. IsOutcomeOf form.entry machine.now verdict bytes.items) }
{
    let snapshot = snapshot_of(alloc, machine)?;
    let source = Source {
        bytes: &text.bytes,
        tree: &text.tree,
        tables: machine.tables(),
        snapshot: &snapshot,
        servers,
    };
    let variables = variables(alloc, text, machine, form, show)?;
    match form {
        OutcomeForm::Verdict => {
            report_with_reasons(alloc, source, machine, verdict, found, &variables.shown)
        }
        OutcomeForm::Transcript(processes) => transcripts(alloc, machine, processes),
        OutcomeForm::Dot => waits(alloc, source, &variables.shown),
        OutcomeForm::Json => object_of(alloc, source, verdict, turn, found, &variables),
    }
}
