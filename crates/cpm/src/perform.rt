//! Which command does what.

use crate::explaining::explain;
use crate::running::{check, outcome, replay, run, trace};
use crate::searching::search;
use cp_cli::command::Command;
use cp_cli_sources::failure::Failure;
use cp_cli_sources::locating::located;
use cp_cli_sources::printing::{Screen, print_bytes, print_completions, print_version};
use cp_outcome::status::status_of;
use std::alloc::Global;
use std::fs::Files;
use std::io::{Input, Print, Write};
use std::rt::Clock;
use std::sync::Wait;
use std::thread::Threads;

/// Carries out a command, and returns the exit status: 0, or that of a refusal that was explained
/// or of a verdict. Opens the text, then the inputs and then the order before it reads any of them,
/// and prints the result to standard output, which it flushes. An explanation in place of a graph
/// for Graphviz is written to `errors`, and progress, if it is asked for, to standard error. What
/// people read has colours if these are wanted.
///
/// # Errors
///
/// `NoFile` if a file can't be opened, `Unopened` or `Unread` for the file of `explain` and the input of
/// one process, `Input` if such inputs make no input or the text lacks a process of `--out` or
/// `--servers`, `NoMember` if a name of a trace is unknown, `NoVariable` if one of `--show` is,
/// `Unsaved` if a schedule can't be saved, and the refusals
/// of `execute` and `execute_order` of cp_execute, of `execute_outcome` and `execute_trace` of
/// cp_execute_observe, of `execute_search`, and of `explain_text`, `explain_all_text` and
/// `explain_object` of cp_explain.
pub(crate) fn perform<
    'a,
    H: Clock + Eprint + Files + Input + Print + Threads + Wait + Sync,
    E: Write,
>(
    rt: &H,
    alloc: Global,
    command: &Command<'a>,
    colours: bool,
    errors: &mut E,
) -> Result<u8, Failure<'a>> {
    match command {
        Command::Version => print_version(rt)?,
        Command::Completions { shell } => print_completions(rt, alloc, *shell)?,
        Command::Check { file } => check(rt, alloc, file)?,
        Command::Explain { file, what } => {
            return explain(rt, alloc, file, *what, colours, errors);
        }
        Command::ExplainRule { page } => print_bytes(rt, page.as_bytes())?,
        Command::Run {
            file,
            run: how,
            input,
            progress,
        } => run(rt, alloc, *file, input, *how, *progress)?,
        Command::Outcome {
            file,
            how,
            servers,
            shown,
            input,
            progress,
        } => {
            let screen = Screen {
                progress: *progress,
                colours,
            };
            return match outcome(rt, alloc, file, input, how, servers, shown, screen) {
                Ok(verdict) => Ok(status_of(verdict)),
                Err(failure) => Err(located(rt, alloc, file, failure)),
            };
        }
        Command::Trace {
            file,
            how,
            only,
            input,
            progress,
        } => {
            if let Err(failure) = trace(rt, alloc, file, only, input, how, *progress) {
                return Err(located(rt, alloc, file, failure));
            }
        }
        Command::Search {
            file,
            how,
            servers,
            save,
            input,
            progress,
        } => {
            let screen = Screen {
                progress: *progress,
                colours,
            };
            return match search(rt, alloc, file, input, servers, *how, *save, screen) {
                Ok(status) => Ok(status),
                Err(failure) => Err(located(rt, alloc, file, failure)),
            };
        }
        Command::Replay {
            file,
            order,
            replay: how,
            input,
        } => replay(rt, alloc, file, order, input, how)?,
    }
    Ok(0)
}
