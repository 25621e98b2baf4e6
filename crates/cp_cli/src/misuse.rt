//! What is wrong with words that the grammar accepts, and what was meant by others.

ghost use Rattle.std.specs.Prelude.{◌≡◌};
ghost use Rattle.cp_cli.specs.declared.misuse.Misuse.TheVariants as misuse;

use crate::command::CommandError;
use clap::error::ErrorKind;
use cp_explain_pages::rules::ALL;
use std::alloc::{AllocError, AllocFailed, Global};
use thiserror::Error;

/// Why words give no command.
#[derive(Clone, Copy, Debug, Error)]
pub(crate) enum Misuse<'a> {
    #[error("--{name} takes decimal digits, from {low} to {most}, not {word}")]
    OutOfRange {
        name: &'static str,
        low: u32,
        most: u32,
        word: &'a str,
    },
    #[error("there is no command {word}: cpm explain {word} judges a file, cpm run {word} runs it")]
    NoCommand {
        word: &'a str,
    },
    #[error("{command} has no --{option}")]
    NoOption {
        command: &'a str,
        option: &'a str,
    },
    #[error("{command} has no --{option}: {instead}")]
    AnotherOption {
        command: &'a str,
        option: &'a str,
        instead: &'static str,
    },
    #[error("--in takes NAME=FILE, not {word}")]
    Unnamed {
        word: &'a str,
    },
    #[error("--in names {name} twice")]
    NamedTwice {
        name: &'a str,
    },
    #[error("--in is given more than {most} times")]
    ManyNamed {
        most: usize,
    },
    #[error("--{option} takes names with commas between them, not {word}")]
    NoNames {
        option: &'static str,
        word: &'a str,
    },
    #[error("--color takes auto, always or never, not {word}")]
    NoColours {
        word: &'a str,
    },
    #[error("there are completions for bash, zsh and fish, not for {word}")]
    NoShell {
        word: &'a str,
    },
    #[error("--servers takes names with commas between them, not {word}")]
    NoServers {
        word: &'a str,
    },
    #[error("--servers names {name} twice")]
    ServerTwice {
        name: &'a str,
    },
    #[error("--servers names more than {most} processes")]
    ManyServers {
        most: usize,
    },
    #[error("--from is above --to")]
    FromAboveTo,
    #[error("only one of the files can be standard input")]
    StandardInputTwice,
    #[error("there is no rule {word}: {ALL}")]
    NoRule {
        word: &'a str,
    },
    #[error("--all reports the violations of a text: it takes a file, not a rule")]
    AllOfRule,
    #[error("--dot draws a text: it takes a file, not a rule")]
    DotOfRule,
    #[error("--json explains a text: it takes a file, not a rule")]
    JsonOfRule,
    #[error("{what} is missing")]
    Missing {
        what: &'static str,
    },
    #[error("memory was refused")]
    Memory,
}

impl<'a, T: Drop> From<AllocFailed<T>> for Misuse<'a> {
    ghost from_gives = { λ _ m. m ≡ misuse.Memory };

    fn from(_error: AllocFailed<T>) -> Misuse<'a> {
        Misuse::Memory
    }
}

fn reported(
    alloc: Global,
    grammar: &mut clap::Command<'_>,
    misuse: &Misuse<'_>,
) -> Result<clap::Error, AllocError> {
    let text = format!(in alloc; "{misuse}")?;
    grammar.error(ErrorKind::ValueValidation, text.as_str())
}

impl<'a> Misuse<'a> {
    /// The error that reports it, with the usage of the program.
    pub(crate) fn error(&self, alloc: Global, grammar: &mut clap::Command<'_>) -> CommandError {
        if let Misuse::Memory = self {
            return CommandError::Memory;
        }
        match reported(alloc, grammar, self) {
            Ok(error) => CommandError::Usage(error),
            Err(_) => CommandError::Memory,
        }
    }
}
