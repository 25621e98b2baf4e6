//! Explanations of texts.

use cp_base_config::explaining::{Explaining, Form};
use cp_cli_sources::failure::Failure;
use cp_cli_sources::opening::open_named;
use cp_cli_sources::printing::flush;
use cp_cli_terminal::painter::Painter;
use cp_explain::asked::explain_as;
use cp_frontend::refusal::{Refusal, exit_of};
use std::alloc::Global;
use std::fs::Files;
use std::io::{self, Input, Print, Write};

// Whether people read what is written.
fn is_for_people(what: Explaining) -> bool {
    matches!(what, Explaining::First(Form::Lines) | Explaining::All)
}

/// Explains a text, with colours if these are wanted, and returns the exit status. If a graph for
/// Graphviz is asked for, standard output has nothing else: an explanation in its place goes to
/// `errors`.
///
/// # Errors
///
/// `Unopened` or `Unread` if the file can't be opened or read, M, and I2 if a write fails.
pub(crate) fn explain<'a, H: Files + Input + Print, E: Write>(
    rt: &H,
    alloc: Global,
    file: &'a str,
    what: Explaining,
    has_colours: bool,
    errors: &mut E,
) -> Result<u8, Failure<'a>> {
    let mut text = open_named(rt, file)?;
    let is_painting = has_colours && is_for_people(what);
    let mut out = Painter::new(alloc, io::writer(rt), is_painting);
    match explain_as(alloc, file.as_bytes(), &mut text, what, &mut out, errors) {
        Ok(explained) => {
            flush(&mut out)?;
            Ok(explained.as_ref().map_or(0, exit_of))
        }
        Err(Refusal::Read) => Err(Failure::Unread { file }),
        Err(refusal) => Err(Failure::Refused(refusal)),
    }
}
