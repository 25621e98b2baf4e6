//! Words that the grammar refuses, in the words of someone who knows what was meant.

use crate::grammar::{has_command, has_option};
use crate::misuse::Misuse;
use std::convert::AsStr;

const JSON: &str = "explain, outcome, trace and search write JSON";

const ROUNDS: &str = "--rounds sets how many rounds are run";

const ALL: &str = "explain --all reports all violations";

// Options that a command doesn't have, and what to write instead.
const MEANT: [(&str, &str, &str); 16] = [
    (
        "outcome",
        "rounds",
        "--limit sets the largest number of rounds",
    ),
    ("run", "limit", ROUNDS),
    ("trace", "limit", ROUNDS),
    ("replay", "rounds", "the order has a line for each round"),
    ("replay", "limit", "the order has a line for each round"),
    ("replay", "workers", "a replay makes one step after another"),
    ("check", "json", JSON),
    ("run", "json", JSON),
    ("replay", "json", JSON),
    ("check", "all", ALL),
    ("run", "all", ALL),
    (
        "run",
        "out",
        "outcome --out writes what a process has displayed",
    ),
    ("run", "dot", "outcome --dot draws who waits for whom"),
    (
        "search",
        "limit",
        "--states sets the largest number of states",
    ),
    ("search", "turn", "a search allows turns of any length"),
    (
        "run",
        "only",
        "trace --only reports the processes that it names",
    ),
];

// What to write instead of an option of a command.
fn instead_of(command: &str, option: &str) -> Option<&'static str> {
    for (known, unknown, instead) in MEANT.as_slice() {
        if known.as_bytes() == command.as_bytes() && unknown.as_bytes() == option.as_bytes() {
            return Some(*instead);
        }
    }
    None
}

// The name of the option that a word gives, without its value.
fn option_of(word: &str) -> Option<&str> {
    let option = word.strip_prefix("--")?;
    match option.split_once('=') {
        Some((name, _)) => Some(name),
        None if option.is_empty() => None,
        None => Some(option),
    }
}

fn no_option<'a>(command: &'a str, option: &'a str) -> Misuse<'a> {
    match instead_of(command, option) {
        Some(instead) => Misuse::AnotherOption {
            command,
            option,
            instead,
        },
        None => Misuse::NoOption { command, option },
    }
}

/// What is meant by words that the grammar refuses, if that is known.
pub(crate) fn meant_by<'a, S: AsStr>(words: &'a [S]) -> Option<Misuse<'a>> {
    let command = words.get(1)?.as_str();
    if !has_command(command) {
        return if command.starts_with('-') {
            None
        } else {
            Some(Misuse::NoCommand { word: command })
        };
    }
    for word in words.iter().skip(2) {
        if let Some(option) = option_of(word.as_str()) {
            if !has_option(command, option) {
                return Some(no_option(command, option));
            }
        }
    }
    None
}
