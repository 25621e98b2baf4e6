//! From the words of a command line to a command.

ghost use Rattle.std.specs.Prelude.{◌≡◌, ◌≤◌, IfOk, IsOk, length, option_map};
ghost use Rattle.clap.specs.Words.{found_of, rows_of, subcommand_rows_of};
ghost use Rattle.cp_cli.specs.Commands.{IsInRange, IsWithoutWords};
ghost use Rattle.cp_cli.specs.Options.{HasNumbers, HasNumbersOf};

use crate::command::{Command, CommandError, Inputs, Invocation};
use crate::completions::Shell;
use crate::defaults::{CHUNK, ROUNDS, TICK, TURN, WAVE, WORKERS};
use crate::grammar::{grammar, usage_of};
use crate::inputs::read_inputs;
use crate::misuse::Misuse;
use crate::options::{
    plan_of, read_colours, read_only, read_outcome, read_replay, read_run, read_search, read_shown,
    read_trace, tick_of,
};
use crate::servers::read_servers;
use crate::unknown::meant_by;
use clap::ArgMatches;
use clap::error::ErrorKind;
use cp_base_config::explaining::{Explaining, Extent, Form};
use cp_base_config::run::Run;
use cp_explain_pages::rules::{is_like_rule, rule_page};
use std::alloc::Global;
use std::convert::AsStr;

// What `explain` writes of a text, by its flags.
fn explaining(matches: &ArgMatches<'_>) -> Explaining {
    let all = matches.get_flag("all");
    if matches.get_flag("json") {
        return Explaining::Object(if all { Extent::All } else { Extent::First });
    }
    if all {
        return Explaining::All;
    }
    Explaining::First(if matches.get_flag("dot") {
        Form::Dot
    } else {
        Form::Lines
    })
}

// The command `explain` of parsed arguments: explains the rule with that name, or else the text of
// the file with that name.
fn explain<'a>(file: &'a str, matches: &ArgMatches<'a>) -> Result<Command<'a>, Misuse<'a>>
    ensures range { IfOk result IsInRange }
    ensures numbers { IfOk result (HasNumbers (rows_of (found_of matches.now))) }
{
    match rule_page(file) {
        Some(_) if matches.get_flag("all") => Err(Misuse::AllOfRule),
        Some(_) if matches.get_flag("json") => Err(Misuse::JsonOfRule),
        Some(_) if matches.get_flag("dot") => Err(Misuse::DotOfRule),
        Some(page) => Ok(Command::ExplainRule { page }),
        None if is_like_rule(file) => Err(Misuse::NoRule { word: file }),
        None => Ok(Command::Explain {
            file,
            what: explaining(matches),
        }),
    }
}

// The command `run` of parsed arguments.
fn run<'a>(
    alloc: Global,
    file: &'a str,
    matches: &ArgMatches<'a>,
) -> Result<Command<'a>, Misuse<'a>>
    ensures range { IfOk result IsInRange }
    ensures numbers { IfOk result (HasNumbers (rows_of (found_of matches.now))) }
{
    Ok(Command::Run {
        file: Some(file),
        run: read_run(matches)?,
        input: read_inputs(alloc, matches)?.beside(&[file])?,
        progress: matches.get_flag("progress"),
    })
}

// The command `outcome` of parsed arguments.
fn outcome<'a>(
    alloc: Global,
    file: &'a str,
    matches: &ArgMatches<'a>,
) -> Result<Command<'a>, Misuse<'a>>
    ensures range { IfOk result IsInRange }
    ensures numbers { IfOk result (HasNumbers (rows_of (found_of matches.now))) }
{
    Ok(Command::Outcome {
        file,
        how: read_outcome(matches)?,
        servers: read_servers(alloc, matches)?,
        shown: read_shown(alloc, matches)?,
        input: read_inputs(alloc, matches)?.beside(&[file])?,
        progress: matches.get_flag("progress"),
    })
}

// The command `trace` of parsed arguments.
fn trace<'a>(
    alloc: Global,
    file: &'a str,
    matches: &ArgMatches<'a>,
) -> Result<Command<'a>, Misuse<'a>>
    ensures range { IfOk result IsInRange }
    ensures numbers { IfOk result (HasNumbers (rows_of (found_of matches.now))) }
{
    Ok(Command::Trace {
        file,
        how: read_trace(matches)?,
        only: read_only(alloc, matches)?,
        input: read_inputs(alloc, matches)?.beside(&[file])?,
        progress: matches.get_flag("progress"),
    })
}

// The command `search` of parsed arguments.
fn search<'a>(
    alloc: Global,
    file: &'a str,
    matches: &ArgMatches<'a>,
) -> Result<Command<'a>, Misuse<'a>>
    ensures range { IfOk result IsInRange }
    ensures numbers { IfOk result (HasNumbers (rows_of (found_of matches.now))) }
{
    Ok(Command::Search {
        file,
        how: read_search(matches)?,
        servers: read_servers(alloc, matches)?,
        save: matches.get_str("save"),
        input: read_inputs(alloc, matches)?.beside(&[file])?,
        progress: matches.get_flag("progress"),
    })
}

// The command `replay` of parsed arguments.
fn replay<'a>(
    alloc: Global,
    file: &'a str,
    matches: &ArgMatches<'a>,
) -> Result<Command<'a>, Misuse<'a>>
    ensures range { IfOk result IsInRange }
    ensures numbers { IfOk result (HasNumbers (rows_of (found_of matches.now))) }
{
    let Some(order) = matches.get_str("ORDER") else {
        return Err(Misuse::Missing { what: "ORDER" });
    };
    Ok(Command::Replay {
        file,
        order,
        replay: read_replay(matches)?,
        input: read_inputs(alloc, matches)?.beside(&[file, order])?,
    })
}

// The command `completions` of parsed arguments.
fn completions<'a>(matches: &ArgMatches<'a>) -> Result<Command<'a>, Misuse<'a>>
    ensures range { IfOk result IsInRange }
    ensures numbers { IfOk result (HasNumbers (rows_of (found_of matches.now))) }
{
    let Some(word) = matches.get_str("SHELL") else {
        return Err(Misuse::Missing { what: "SHELL" });
    };
    match Shell::named(word) {
        Some(shell) => Ok(Command::Completions { shell }),
        None => Err(Misuse::NoShell { word }),
    }
}

// The command with this name. The grammar requires its file, so that isn't missing.
fn command_of<'a>(
    alloc: Global,
    name: &str,
    matches: &ArgMatches<'a>,
) -> Result<Command<'a>, Misuse<'a>>
    ensures range { IfOk result IsInRange }
    ensures numbers { IfOk result (HasNumbers (rows_of (found_of matches.now))) }
{
    if name == "completions" {
        return completions(matches);
    }
    let Some(file) = matches.get_str("FILE") else {
        return Err(Misuse::Missing { what: "FILE" });
    };
    match name {
        "check" => Ok(Command::Check { file }),
        "explain" => explain(file, matches),
        "outcome" => outcome(alloc, file, matches),
        "replay" => replay(alloc, file, matches),
        "search" => search(alloc, file, matches),
        "trace" => trace(alloc, file, matches),
        _ => run(alloc, file, matches),
    }
}

// The command of parsed arguments, and its colours. The grammar requires a command.
fn invocation_of<'a>(alloc: Global, matches: &ArgMatches<'a>) -> Result<Invocation<'a>, Misuse<'a>>
    ensures range { IfOk result (λ invocation. IsInRange invocation.command) }
    ensures numbers { let rows = option_map (λ p. p.1) (subcommand_rows_of matches.now) in
        IfOk result (λ invocation. HasNumbersOf rows invocation.command) }
{
    let Some((name, matches)) = matches.subcommand() else {
        return Err(Misuse::Missing { what: "a command" });
    };
    let colours = read_colours(matches)?;
    let command = command_of(alloc, name, matches)?;
    Ok(Invocation { command, colours })
}

// The command if there are no words after the program's name.
fn without_words<'a>() -> Command<'a>
    ensures rounds { IsInRange result }
    ensures none { IsWithoutWords result }
{
    Command::Run {
        file: None,
        run: Run {
            rounds: ROUNDS,
            plan: plan_of(TURN, WORKERS, CHUNK, WAVE),
            tick: tick_of(TICK),
            chains: false,
        },
        input: Inputs::Empty,
        progress: false,
    }
}

// A request for the version is a command, and any other answer of clap an error.
fn version_or<'a>(error: clap::Error) -> Result<Invocation<'a>, CommandError>
    ensures { IfOk result (λ invocation. IsInRange invocation.command) }
{
    match error.kind() {
        ErrorKind::DisplayVersion => Ok(Invocation::of(Command::Version)),
        _ => Err(CommandError::from(error)),
    }
}

// The error that reports a misuse, with the usage of the command.
fn misuse_error<S: AsStr>(
    alloc: Global,
    grammar: &mut clap::Command<'_>,
    words: &[S],
    misuse: &Misuse<'_>,
) -> CommandError {
    let name = match words.get(1) {
        Some(word) => word.as_str(),
        None => "",
    };
    match usage_of(alloc, name) {
        Ok(Some(mut own)) => misuse.error(alloc, &mut own),
        Ok(None) => misuse.error(alloc, grammar),
        Err(_) => CommandError::Memory,
    }
}

// The answer to words that the grammar refuses, or that ask for the version.
fn refused<'a, S: AsStr>(
    alloc: Global,
    grammar: &mut clap::Command<'_>,
    words: &'a [S],
    error: clap::Error,
) -> Result<Invocation<'a>, CommandError>
    ensures { IfOk result (λ invocation. IsInRange invocation.command) }
{
    match (error.kind(), meant_by(words)) {
        (ErrorKind::UnknownArgument | ErrorKind::InvalidSubcommand, Some(misuse)) => {
            Err(misuse_error(alloc, grammar, words, &misuse))
        }
        _ => version_or(error),
    }
}

/// Parses the words of a command line, the first of which is the program's name. If there are no
/// others, the command is to run the text of standard input for 2 rounds. With them come the
/// colours that are asked for.
///
/// # Errors
///
/// `Usage` if the words are those of no command or ask for help, and `Memory` if memory runs out.
pub fn read_command<'a, S: AsStr>(
    alloc: Global,
    words: &'a [S],
) -> Result<Invocation<'a>, CommandError>
    ensures rounds { IfOk result (λ invocation. IsInRange invocation.command) }
    ensures none { length words.entry.now ≤ 1
        → IfOk result (λ invocation. IsWithoutWords invocation.command) }
    ensures some { length words.entry.now ≤ 1 → IsOk result }
{
    if words.len() <= 1 {
        return Ok(Invocation::of(without_words()));
    }
    let mut grammar = grammar(alloc)?;
    let matches = match grammar.try_get_matches_from_mut(words) {
        Ok(matches) => matches,
        Err(error) => return refused(alloc, &mut grammar, words, error),
    };
    match invocation_of(alloc, &matches) {
        Ok(invocation) => Ok(invocation),
        Err(misuse) => Err(misuse_error(alloc, &mut grammar, words, &misuse)),
    }
}
