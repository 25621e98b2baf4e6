//! Where the inputs of the processes come from.

use crate::command::{Inputs, NamedInput, STANDARD_INPUT};
use crate::misuse::Misuse;
use clap::ArgMatches;
use std::alloc::Global;

// There are no more processes than this.
const MAX_NAMED_INPUTS: usize = 255;

fn named<'a>(word: &'a str) -> Result<NamedInput<'a>, Misuse<'a>> {
    match word.split_once('=') {
        Some((process, file)) if !process.is_empty() && !file.is_empty() => {
            Ok(NamedInput { process, file })
        }
        _ => Err(Misuse::Unnamed { word }),
    }
}

// The inputs that these words name, no process twice, in any letter case.
fn all_named<'a>(alloc: Global, words: &[&'a str]) -> Result<Vec<NamedInput<'a>>, Misuse<'a>> {
    if MAX_NAMED_INPUTS < words.len() {
        return Err(Misuse::ManyNamed {
            most: MAX_NAMED_INPUTS,
        });
    }
    let mut all: Vec<NamedInput<'a>> = Vec::new(alloc);
    for word in words {
        let input = named(word)?;
        if all
            .iter()
            .any(|other| other.process.eq_ignore_ascii_case(input.process))
        {
            return Err(Misuse::NamedTwice {
                name: input.process,
            });
        }
        all.push(input)?;
    }
    Ok(all)
}

/// The inputs that the options name.
pub(crate) fn read_inputs<'a>(
    alloc: Global,
    matches: &ArgMatches<'a>,
) -> Result<Inputs<'a>, Misuse<'a>> {
    if let Some(words) = matches.get_strs("in") {
        return Ok(Inputs::Named(all_named(alloc, words)?));
    }
    Ok(match matches.get_str("input") {
        Some(file) => Inputs::Joined(file),
        None => Inputs::Empty,
    })
}

impl<'a> Inputs<'a> {
    // How many of the inputs come from standard input.
    fn from_standard_input(&self) -> usize {
        match self {
            Inputs::Empty => 0,
            Inputs::Joined(file) => usize::from(*file == STANDARD_INPUT),
            Inputs::Named(all) => all
                .iter()
                .filter(|input| input.file == STANDARD_INPUT)
                .count(),
        }
    }

    /// These inputs, unless they and these files would read standard input twice.
    pub(crate) fn beside(self, files: &[&str]) -> Result<Inputs<'a>, Misuse<'a>> {
        let others = files.iter().filter(|file| **file == STANDARD_INPUT).count();
        match self.from_standard_input().saturating_add(others) {
            0 | 1 => Ok(self),
            _ => Err(Misuse::StandardInputTwice),
        }
    }
}
