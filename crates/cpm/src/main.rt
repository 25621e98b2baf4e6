//! cpm checks, explains and runs texts of Concurrent Pascal. It parses its arguments, opens the
//! files that they name, and prints what was asked for.
//!
//! - `perform`: which command does what.
//! - `running`: checks, runs, outcomes, traces and replays. `searching`: searches. `explaining`:
//!   explanations.
//!
//! cp_cli_sources opens what commands read, and says why a command has no result.
#![tactic(auto)]

mod explaining;
mod perform;
mod running;
mod searching;

use crate::perform::perform;
use cp_cli::command::{Command, CommandError};
use cp_cli::reading::read_command;
use cp_cli_sources::failure::{Failure, USAGE};
use cp_frontend::refusal::Refusal;
use std::env::VarError;
use std::io::IsTerminal;
use std::process::ExitCode;
use std::{env, io};

// The arguments of the program, starting with its own name.
fn arguments(rt: &HostRuntime) -> io::Result<Vec<String>> {
    let arguments: Vec<String> = env::args(rt)?.collect(rt.alloc())?;
    Ok(arguments)
}

// If standard error can't be written, the exit status alone says what happened.
fn report_failure(rt: &HostRuntime, failure: &Failure) -> ExitCode {
    let _ = eprintln!(rt; "{failure}");
    ExitCode::from(failure.exit())
}

fn report_refusal(rt: &HostRuntime, refusal: Refusal) -> ExitCode {
    report_failure(rt, &Failure::Refused(refusal))
}

fn report_misuse(rt: &HostRuntime, error: &CommandError) -> ExitCode {
    let _ = eprint!(rt; "{error}");
    ExitCode::from(USAGE)
}

fn report_unread_arguments(rt: &HostRuntime, error: &io::Error) -> ExitCode {
    if error.kind() == io::ErrorKind::OutOfMemory {
        return report_refusal(rt, Refusal::Memory);
    }
    let _ = eprintln!(rt; "error: an argument is not UTF-8");
    ExitCode::from(USAGE)
}

// Whether the environment refuses colours: the variable NO_COLOR isn't empty.
fn refuses_colours(rt: &HostRuntime) -> bool {
    match env::var(rt, "NO_COLOR") {
        Ok(value) => !value.is_empty(),
        Err(VarError::NotPresent) => false,
        Err(_) => true,
    }
}

// Says what a command without words waits for, to whoever would type it.
fn announce(rt: &HostRuntime, command: &Command<'_>) {
    if matches!(command, Command::Run { file: None, .. }) && rt.stdin().is_terminal() {
        let _ = eprintln!(rt;
            "cpm reads a text from standard input; 'cpm --help' lists the commands"
        );
    }
}

fn main(rt: HostRuntime) -> ExitCode {
    let arguments = match arguments(&rt) {
        Ok(arguments) => arguments,
        Err(error) => return report_unread_arguments(&rt, &error),
    };
    let invocation = match read_command(rt.alloc(), arguments.as_slice()) {
        Ok(invocation) => invocation,
        Err(CommandError::Memory) => return report_refusal(&rt, Refusal::Memory),
        Err(error) => return report_misuse(&rt, &error),
    };
    announce(&rt, &invocation.command);
    let colours = invocation
        .colours
        .are_shown(rt.stdout().is_terminal(), refuses_colours(&rt));
    let mut errors = rt.stderr();
    match perform(&rt, rt.alloc(), &invocation.command, colours, &mut errors) {
        Ok(status) => ExitCode::from(status),
        Err(failure) => report_failure(&rt, &failure),
    }
}
