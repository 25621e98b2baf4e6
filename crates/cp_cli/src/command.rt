//! What cpm can be asked to do.

ghost use Rattle.std.specs.Prelude.{◌≡◌};
ghost use Rattle.cp_cli.specs.Commands.{ComesFrom};
ghost use Rattle.cp_cli.specs.declared.command.CommandError.TheVariants as error;

use crate::completions::Shell;
use clap::error::ErrorKind;
use cp_base_config::explaining::Explaining;
use cp_base_config::outcome::{OutcomeForm, UntilStill};
use cp_base_config::run::{Replay, Run};
use cp_base_config::search::Searching;
use cp_base_config::trace::Tracing;
use cp_cli_terminal::colours::Colours;
use std::alloc::AllocError;
use thiserror::Error;

/// The word that represents standard input in place of a file name.
pub const STANDARD_INPUT: &str = "-";

/// The version of cpm.
pub const VERSION: &str = "0.1.0";

/// A command, and when its lines for people are coloured.
#[derive(Drop)]
pub struct Invocation<'a> {
    pub command: Command<'a>,
    pub colours: Colours,
}

impl<'a> Invocation<'a> {
    /// A command with coloured lines on a terminal.
    pub fn of(command: Command<'a>) -> Invocation<'a>
        ensures { result.command ≡ command.entry }
    {
        Invocation {
            command,
            colours: Colours::Auto,
        }
    }
}

/// What cpm is asked to do. A file's name may be that of standard input.
#[derive(Drop)]
pub enum Command<'a> {
    /// `--version`: prints the version.
    Version,
    /// `completions SHELL`: prints the script by which a shell completes the words of a command line.
    Completions {
        shell: Shell,
    },
    /// `check FILE`: judges the text of a file.
    Check {
        file: &'a str,
    },
    /// `explain FILE`: judges the text of a file and explains the judgement.
    Explain {
        file: &'a str,
        what: Explaining,
    },
    /// `explain RULE`: explains a rule.
    ExplainRule {
        page: &'static str,
    },
    /// `run FILE`: runs the text of a file, or of standard input if `file` is `None`, and shows its
    /// progress if that is asked for.
    Run {
        file: Option<&'a str>,
        run: Run,
        input: Inputs<'a>,
        progress: bool,
    },
    /// `outcome FILE`: runs the text of a file until nothing can move, and shows what became of it.
    /// The processes with the names in `servers` may wait forever.
    Outcome {
        file: &'a str,
        how: UntilStill,
        servers: Vec<&'a str>,
        shown: Shown<'a>,
        input: Inputs<'a>,
        progress: bool,
    },
    /// `trace FILE`: runs the text of a file and reports, in one of its forms, what became of the
    /// processes and monitors with the names in `only`, or of all if there are none.
    Trace {
        file: &'a str,
        how: Tracing,
        only: Vec<&'a str>,
        input: Inputs<'a>,
        progress: bool,
    },
    /// `search FILE`: searches all schedules of the text of a file. The processes with the names in
    /// `servers` may wait forever. The schedules that it finds are written to files whose names begin
    /// with `save`, if that is given.
    Search {
        file: &'a str,
        how: Searching,
        servers: Vec<&'a str>,
        save: Option<&'a str>,
        input: Inputs<'a>,
        progress: bool,
    },
    /// `replay FILE ORDER`: replays the text of a file in the order of another.
    Replay {
        file: &'a str,
        order: &'a str,
        replay: Replay,
        input: Inputs<'a>,
    },
}

/// What is shown of an outcome.
#[derive(Drop)]
pub struct Shown<'a> {
    pub form: OutcomeForm<()>,
    /// `--out NAME,..`: the processes whose transcripts are written.
    pub processes: Vec<&'a str>,
    /// `--show NAME,..`: the variables whose values are added.
    pub variables: Vec<&'a str>,
}

/// Where the inputs of the processes come from.
#[derive(Drop)]
pub enum Inputs<'a> {
    /// From nowhere: all are empty.
    Empty,
    /// `--input FILE`: from one file, with byte 28 between them.
    Joined(&'a str),
    /// `--in NAME=FILE`: from a file for each of these processes. No name is twice.
    Named(Vec<NamedInput<'a>>),
}

/// The name of a process, and that of the file with its input.
#[derive(Clone, Copy)]
pub struct NamedInput<'a> {
    pub process: &'a str,
    pub file: &'a str,
}

/// Why the arguments give no command.
#[derive(Debug, Drop, Error)]
pub enum CommandError {
    /// The arguments aren't those of a command, or ask for help. The exit status is 2.
    #[error("{0}")]
    Usage(clap::Error),
    /// M: memory was refused.
    #[error("fault M")]
    Memory,
}

impl From<AllocError> for CommandError {
    ghost from_gives = { λ _ e. e ≡ error.Memory };

    fn from(_error: AllocError) -> CommandError {
        CommandError::Memory
    }
}

impl From<clap::Error> for CommandError {
    ghost from_gives = { λ error e. ComesFrom error e };

    fn from(error: clap::Error) -> CommandError {
        match error.kind() {
            ErrorKind::OutOfMemory => CommandError::Memory,
            _ => CommandError::Usage(error),
        }
    }
}
