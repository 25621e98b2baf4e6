//! Checks, runs, outcomes, traces and replays. Each opens all that it reads before it reads any of
//! it, and prints its result. A text is scanned, parsed and judged once. Errors are those of opening,
//! of reading inputs by name, and of the calls of cp_execute and cp_execute_observe.

use cp_base_config::outcome::{OutcomeForm, UntilStill};
use cp_base_config::run::{Replay, Run};
use cp_base_config::trace::Tracing;
use cp_cli::command::{Inputs, STANDARD_INPUT, Shown};
use cp_cli_inputs::named::{process_numbers, unknown_name, unknown_variable};
use cp_cli_inputs::reading::read_inputs;
use cp_cli_progress::Progress;
use cp_cli_sources::failure::Failure;
use cp_cli_sources::inputs::{Opened, Sources, open_inputs, open_sources};
use cp_cli_sources::judging::open_judged;
use cp_cli_sources::opening::{open, read_bytes};
use cp_cli_sources::printing::{Screen, flush, flushed, print_bytes};
use cp_cli_terminal::painter::Painter;
use cp_execute::execute::{Job, execute};
use cp_execute::execute_order::execute_order;
use cp_execute::replaying::report_after_replay;
use cp_execute::running::report_after_run;
use cp_execute_observe::tracing::machine_after_trace;
use cp_execute_observe::until_still::outcome_after_run;
use cp_frontend::inputs::ProcessInputs;
use cp_frontend::refusal::Refusal;
use cp_frontend::sources::{AcceptedText, read_accepted};
use cp_frontend::writing::write_result;
use cp_outcome::verdict::Verdict;
use std::alloc::Global;
use std::fs::Files;
use std::io::{self, Input, Print, Read};
use std::rt::Clock;
use std::sync::Wait;
use std::thread::Threads;

// Does a job, and prints its result.
fn print_job<H: Clock + Eprint + Print + Threads + Wait + Sync, R: Read, S: Read>(
    rt: &H,
    alloc: Global,
    text: &mut R,
    input: &mut S,
    job: &Job,
    progress: bool,
) -> Result<(), Refusal> {
    let progress = Progress::of(rt, progress);
    let mut out = progress.beside(io::writer(rt));
    let done = execute(rt, alloc, text, input, job, &progress, &mut out);
    progress.erase();
    flushed(done, &mut out)
}

/// Checks a text.
pub(crate) fn check<'a, H: Clock + Eprint + Files + Input + Print + Threads + Wait + Sync>(
    rt: &H,
    alloc: Global,
    file: &'a str,
) -> Result<(), Failure<'a>> {
    let mut text = open(rt, file)?;
    let mut input = b"".as_slice();
    print_job(rt, alloc, &mut text, &mut input, &Job::Check, false)?;
    Ok(())
}

// Runs an accepted text on these inputs, and prints the report.
fn print_report<H: Clock + Eprint + Print + Threads + Wait + Sync>(
    rt: &H,
    alloc: Global,
    text: &AcceptedText,
    inputs: &ProcessInputs,
    run: &Run,
    progress: bool,
) -> Result<(), Refusal> {
    let progress = Progress::of(rt, progress);
    let mut out = progress.beside(io::writer(rt));
    let report = report_after_run(rt, alloc, text, inputs, run, &progress);
    progress.erase();
    write_result(&mut out, &report?)?;
    flush(&mut out)
}

/// Runs a text, and prints the report.
pub(crate) fn run<'a, H: Clock + Eprint + Files + Input + Print + Threads + Wait + Sync>(
    rt: &H,
    alloc: Global,
    file: Option<&'a str>,
    input: &Inputs<'a>,
    run: Run,
    progress: bool,
) -> Result<(), Failure<'a>> {
    let mut text = open(rt, file.unwrap_or(STANDARD_INPUT))?;
    match open_inputs(rt, alloc, input)? {
        Opened::One(mut input) => {
            print_job(rt, alloc, &mut text, &mut input, &Job::Run(run), progress)?;
        }
        Opened::Named(named) => {
            let text = read_accepted(alloc, &mut text)?;
            let inputs = read_inputs(alloc, &text, named)?;
            print_report(rt, alloc, &text, &inputs, &run, progress)?;
        }
    }
    Ok(())
}

// The form of an outcome, with the numbers of the processes whose transcripts are wanted.
fn numbered(form: OutcomeForm<()>, processes: &[u32]) -> OutcomeForm<&[u32]> {
    match form {
        OutcomeForm::Verdict => OutcomeForm::Verdict,
        OutcomeForm::Transcript(()) => OutcomeForm::Transcript(processes),
        OutcomeForm::Dot => OutcomeForm::Dot,
        OutcomeForm::Json => OutcomeForm::Json,
    }
}

// Runs a text until nothing can move, and prints the outcome.
fn print_outcome<H: Clock + Eprint + Print + Threads + Wait + Sync>(
    rt: &H,
    alloc: Global,
    text: &AcceptedText,
    inputs: &ProcessInputs,
    how: &UntilStill,
    servers: &[u32],
    form: OutcomeForm<&[u32]>,
    show: &[&str],
    screen: Screen,
) -> Result<Verdict, Refusal> {
    let progress = Progress::of(rt, screen.progress);
    let is_painting = screen.colours && matches!(form, OutcomeForm::Verdict);
    let mut out = progress.beside(Painter::new(alloc, io::writer(rt), is_painting));
    let outcome = outcome_after_run(rt, alloc, text, inputs, how, servers, form, show, &progress);
    progress.erase();
    let outcome = outcome?;
    write_result(&mut out, &outcome.bytes)?;
    flush(&mut out)?;
    Ok(outcome.verdict)
}

// Opens the text and the inputs of an outcome. An object says so if the text is refused.
fn open_outcome<'a, H: Files + Input + Print>(
    rt: &H,
    alloc: Global,
    file: &'a str,
    input: &Inputs<'a>,
    form: OutcomeForm<()>,
) -> Result<Sources<'a, H::File, H::Reader>, Failure<'a>> {
    match form {
        OutcomeForm::Json => open_judged(rt, alloc, file, input),
        _ => open_sources(rt, alloc, file, input),
    }
}

/// Runs a text until nothing can move, prints what is to be shown, and returns the verdict. The
/// processes with the names in `servers` may wait forever.
pub(crate) fn outcome<'a, H: Clock + Eprint + Files + Input + Print + Threads + Wait + Sync>(
    rt: &H,
    alloc: Global,
    file: &'a str,
    input: &Inputs<'a>,
    how: &UntilStill,
    servers: &[&'a str],
    shown: &Shown<'a>,
    screen: Screen,
) -> Result<Verdict, Failure<'a>> {
    let Sources { text, inputs } = open_outcome(rt, alloc, file, input, shown.form)?;
    let servers = process_numbers(alloc, &text, servers)?;
    let numbers = process_numbers(alloc, &text, &shown.processes)?;
    find_variables(alloc, &text, &shown.variables)?;
    let inputs = inputs.read(alloc, &text)?;
    let form = numbered(shown.form, &numbers);
    let show = &shown.variables;
    let verdict = print_outcome(rt, alloc, &text, &inputs, how, &servers, form, show, screen)?;
    Ok(verdict)
}

// Fails unless a text has a process or a monitor with each of these names.
fn find_names<'a>(
    alloc: Global,
    text: &AcceptedText,
    names: &[&'a str],
) -> Result<(), Failure<'a>> {
    match unknown_name(alloc, text, names) {
        Ok(None) => Ok(()),
        Ok(Some(name)) => Err(Failure::NoMember { name }),
        Err(_) => Err(Failure::Refused(Refusal::Memory)),
    }
}

// Fails unless a text has variables with all of these names.
fn find_variables<'a>(
    alloc: Global,
    text: &AcceptedText,
    names: &[&'a str],
) -> Result<(), Failure<'a>> {
    match unknown_variable(alloc, text, names) {
        Ok(None) => Ok(()),
        Ok(Some(name)) => Err(Failure::NoVariable { name }),
        Err(_) => Err(Failure::Refused(Refusal::Memory)),
    }
}

// Runs a text, and prints what became of the processes and monitors with these names.
fn print_trace<H: Clock + Eprint + Print + Threads + Wait + Sync>(
    rt: &H,
    alloc: Global,
    text: &AcceptedText,
    inputs: &ProcessInputs,
    only: &[&str],
    how: &Tracing,
    progress: bool,
) -> Result<(), Refusal> {
    let progress = Progress::of(rt, progress);
    let mut out = progress.beside(io::writer(rt));
    let traced = machine_after_trace(rt, alloc, text, inputs, only, how, &progress, &mut out);
    progress.erase();
    traced?;
    flush(&mut out)
}

/// Runs a text, and prints what became in each round of the processes and monitors with these
/// names, or of all if there are none.
pub(crate) fn trace<'a, H: Clock + Eprint + Files + Input + Print + Threads + Wait + Sync>(
    rt: &H,
    alloc: Global,
    file: &'a str,
    only: &[&'a str],
    input: &Inputs<'a>,
    how: &Tracing,
    progress: bool,
) -> Result<(), Failure<'a>> {
    let Sources { text, inputs } = open_sources(rt, alloc, file, input)?;
    find_names(alloc, &text, only)?;
    let inputs = inputs.read(alloc, &text)?;
    print_trace(rt, alloc, &text, &inputs, only, how, progress)?;
    Ok(())
}

// Replays the text of a reader in the order of another, and prints the report.
fn print_replay<H: Print, R: Read, S: Read, O: Read>(
    rt: &H,
    alloc: Global,
    text: &mut R,
    input: &mut S,
    order: &mut O,
    replay: &Replay,
) -> Result<(), Refusal> {
    let mut out = io::writer(rt);
    let done = execute_order(alloc, text, input, order, replay, &mut out);
    flushed(done, &mut out)
}

/// Replays a text in the order of a file, and prints the report.
pub(crate) fn replay<'a, H: Files + Input + Print>(
    rt: &H,
    alloc: Global,
    file: &'a str,
    order: &'a str,
    input: &Inputs<'a>,
    replay: &Replay,
) -> Result<(), Failure<'a>> {
    let mut text = open(rt, file)?;
    let inputs = open_inputs(rt, alloc, input)?;
    let mut order = open(rt, order)?;
    match inputs {
        Opened::One(mut input) => {
            print_replay(rt, alloc, &mut text, &mut input, &mut order, replay)?;
        }
        Opened::Named(named) => {
            let text = read_accepted(alloc, &mut text)?;
            let inputs = read_inputs(alloc, &text, named)?;
            let order = read_bytes(alloc, &mut order)?;
            let report = report_after_replay(alloc, &text, &inputs, &order, replay)?;
            print_bytes(rt, &report)?;
        }
    }
    Ok(())
}
