//! The grammar of the command line: the commands, and which arguments each of them has.

use crate::arguments::{
    ALL, Argument, CHAINS, CHUNK, COLOR, EXPLAIN_DOT, EXPLAIN_JSON, FROM, IN, INPUT, LIMIT, MEMORY,
    ONLY, ORDER, OUT, OUTCOME_DOT, OUTCOME_JSON, PROGRESS, ROUNDS, SAVE, SEARCH_JSON,
    SEARCH_PROGRESS, SEARCH_WORKERS, SERVERS, SHELL, SHOW, STATES, SVG, TEXT, TEXT_OR_RULE, TICK,
    TIMELINE, TO, TRACE_JSON, TURN, WAVE, WORKERS,
};
use crate::command::VERSION;
use clap::Arg;
use std::alloc::{AllocError, Global};

const EXITS: &str = "Exits:
  0  what was asked for was written
  1  the text, the input or the order is refused
  2  the arguments are wrong, or ask for help
  3  out of memory
  4  a file can't be opened, a read failed or a write failed
  5  an outcome or a search is 'stuck': nothing can move, and not all processes have ended
  6  an outcome or a search is 'fault': a process has faulted
  7  an outcome or a search is 'running': a limit was reached

Help and refusals go to standard error, results to standard output.";

const SUBCOMMAND_EXITS: &str = "'cpm --help' lists the exits. Help goes to standard error.";

/// A command.
#[derive(Clone, Copy)]
pub(crate) struct Words {
    pub(crate) name: &'static str,
    pub(crate) about: &'static str,
    pub(crate) arguments: &'static [Argument],
}

const CHECK: Words = Words {
    name: "check",
    about: "Checks a text against the rules of the language",
    arguments: &[TEXT],
};

const EXPLAIN: Words = Words {
    name: "explain",
    about: "Explains what is wrong with a text, who has which right in an accepted text, or a rule",
    arguments: &[TEXT_OR_RULE, EXPLAIN_DOT, EXPLAIN_JSON, ALL, COLOR],
};

const RUN: Words = Words {
    name: "run",
    about: "Runs a text and reports its state",
    arguments: &[
        TEXT, ROUNDS, TURN, WORKERS, CHUNK, WAVE, TICK, INPUT, IN, CHAINS, PROGRESS,
    ],
};

const OUTCOME: Words = Words {
    name: "outcome",
    about: "Runs a text until nothing can move, and reports what became of each process",
    arguments: &[
        TEXT,
        LIMIT,
        TURN,
        WORKERS,
        CHUNK,
        WAVE,
        TICK,
        INPUT,
        IN,
        SERVERS,
        OUT,
        SHOW,
        OUTCOME_DOT,
        OUTCOME_JSON,
        PROGRESS,
        COLOR,
    ],
};

const TRACE: Words = Words {
    name: "trace",
    about: "Runs a text and reports what each round changed",
    arguments: &[
        TEXT, ROUNDS, FROM, TO, ONLY, TURN, WORKERS, CHUNK, WAVE, TICK, INPUT, IN, TRACE_JSON,
        TIMELINE, SVG, PROGRESS,
    ],
};

const REPLAY: Words = Words {
    name: "replay",
    about: "Replays a text in the order of steps that a file lists, and reports its state",
    arguments: &[TEXT, ORDER, TURN, TICK, INPUT, IN, CHAINS],
};

const SEARCH: Words = Words {
    name: "search",
    about: "Searches all schedules of a text for one that gets stuck or faults",
    arguments: &[
        TEXT,
        STATES,
        MEMORY,
        SEARCH_WORKERS,
        INPUT,
        IN,
        SERVERS,
        SAVE,
        SEARCH_JSON,
        SEARCH_PROGRESS,
        COLOR,
    ],
};

const COMPLETIONS: Words = Words {
    name: "completions",
    about: "Prints a script by which a shell completes commands and options",
    arguments: &[SHELL],
};

fn command<'a>(alloc: Global, words: &Words) -> Result<clap::Command<'a>, AllocError> {
    let mut command = clap::Command::new(alloc, words.name)
        .about(words.about)
        .after_help(SUBCOMMAND_EXITS);
    for argument in words.arguments {
        command = with_argument(command, argument.argument(alloc))?;
    }
    Ok(command)
}

// Adds an argument, unless memory ran out for it. Arguments and commands are made one at a time,
// before they are added: each one that is alive at a failure makes the proof longer.
fn with_argument<'a>(
    command: clap::Command<'a>,
    argument: Result<Arg<'a>, AllocError>,
) -> Result<clap::Command<'a>, AllocError> {
    command.arg(argument?)
}

// Adds a command, unless memory ran out for it.
fn with_command<'a>(
    cpm: clap::Command<'a>,
    command: Result<clap::Command<'a>, AllocError>,
) -> Result<clap::Command<'a>, AllocError> {
    cpm.subcommand(command?)
}

/// The commands.
pub(crate) const COMMANDS: [Words; 8] = [
    CHECK,
    EXPLAIN,
    RUN,
    OUTCOME,
    TRACE,
    SEARCH,
    REPLAY,
    COMPLETIONS,
];

fn words_of(command: &str) -> Option<Words> {
    for words in COMMANDS.as_slice() {
        if words.name == command {
            return Some(*words);
        }
    }
    None
}

// A command as it is written.
fn full_name(command: &str) -> &'static str {
    match command {
        "check" => "cpm check",
        "completions" => "cpm completions",
        "explain" => "cpm explain",
        "outcome" => "cpm outcome",
        "replay" => "cpm replay",
        "search" => "cpm search",
        "trace" => "cpm trace",
        _ => "cpm run",
    }
}

/// Whether there is a command with this name.
pub(crate) fn has_command(command: &str) -> bool {
    command == "help" || words_of(command).is_some()
}

/// Whether a command has an option with this name.
pub(crate) fn has_option(command: &str, option: &str) -> bool {
    match words_of(command) {
        Some(words) => option == "help" || words.arguments.iter().any(|x| x.has_name(option)),
        None => false,
    }
}

/// The grammar of only one command, for its usage.
///
/// # Errors
///
/// `AllocError` if memory runs out.
pub(crate) fn usage_of<'a>(
    alloc: Global,
    name: &str,
) -> Result<Option<clap::Command<'a>>, AllocError> {
    Ok(match words_of(name) {
        Some(words) => Some(command(alloc, &words)?.bin_name(full_name(name))?),
        None => None,
    })
}

/// The grammar of the command line.
///
/// # Errors
///
/// `AllocError` if memory runs out.
pub(crate) fn grammar<'a>(alloc: Global) -> Result<clap::Command<'a>, AllocError> {
    let mut cpm = clap::Command::new(alloc, "cpm")
        .about("Checks and runs texts of Concurrent Pascal")
        .version(VERSION)
        .after_help(EXITS)
        .subcommand_required(true);
    for words in COMMANDS.as_slice() {
        cpm = with_command(cpm, command(alloc, words))?;
    }
    Ok(cpm)
}
