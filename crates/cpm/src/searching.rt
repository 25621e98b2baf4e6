//! Searches: what all schedules of a text lead to, and the files of the schedules that are found.
//! Everything that is read is opened before any of it is read.

use cp_base_config::search::{SearchForm, Searching};
use cp_cli::command::Inputs;
use cp_cli_inputs::named::process_numbers;
use cp_cli_progress::Progress;
use cp_cli_sources::failure::Failure;
use cp_cli_sources::inputs::{Sources, open_sources};
use cp_cli_sources::judging::open_judged;
use cp_cli_sources::printing::{Screen, flush};
use cp_cli_terminal::painter::Painter;
use cp_execute_search::searching::{Reported, search_text};
use cp_execute_search::verdict::status_of;
use cp_frontend::inputs::ProcessInputs;
use cp_frontend::refusal::Refusal;
use cp_frontend::sources::AcceptedText;
use cp_frontend::writing::write_result;
use cp_outcome_schedule::findings::{Finding, Findings};
use std::alloc::Global;
use std::fs::{self, Files};
use std::io::{self, Input, Print};
use std::rt::Clock;
use std::thread::Threads;

// The names of the files of the schedules that are found, by their kinds.
#[derive(Drop)]
struct Names<'a> {
    name: &'a str,
    stuck: String,
    fault: String,
}

impl<'a> Names<'a> {
    // The names of the files whose names begin like this.
    fn of(alloc: Global, name: &'a str) -> Result<Names<'a>, Refusal> {
        Ok(Names {
            name,
            stuck: format!(in alloc; "{name}.stuck")?,
            fault: format!(in alloc; "{name}.fault")?,
        })
    }

    // Writes the schedules that were found.
    fn save<H: Files>(&self, rt: &H, findings: &Findings) -> Result<(), Failure<'a>> {
        let saved = save(rt, self.stuck.as_str(), &findings.stuck);
        match saved.and_then(|()| save(rt, self.fault.as_str(), &findings.fault)) {
            Ok(()) => Ok(()),
            Err(error) => Err(Failure::Unsaved {
                name: self.name,
                error,
            }),
        }
    }
}

// Writes a schedule to a file with this name, if one was found.
fn save<H: Files>(rt: &H, file: &str, finding: &Finding) -> io::Result<()> {
    match finding {
        Finding::Schedule(found) => fs::write(rt, file, found.schedule.order.as_slice()),
        _ => Ok(()),
    }
}

// Searches a text, prints what was found, and returns it.
fn print_search<H: Clock + Eprint + Print + Sync + Threads>(
    rt: &H,
    alloc: Global,
    text: &AcceptedText,
    inputs: &ProcessInputs,
    servers: &[u32],
    how: Searching,
    screen: Screen,
) -> Result<Reported, Refusal> {
    let progress = Progress::of(rt, screen.progress);
    let is_painting = screen.colours && matches!(how.form, SearchForm::Lines);
    let mut out = progress.beside(Painter::new(alloc, io::writer(rt), is_painting));
    let workers = how.workers;
    let searched = search_text(rt, alloc, text, inputs, servers, how, workers, &progress);
    progress.erase();
    let searched = searched?;
    write_result(&mut out, &searched.page)?;
    flush(&mut out)?;
    Ok(searched)
}

/// Searches a text, prints what was found, and returns the exit status. Then it writes each schedule
/// that was found to a file, if names for these are asked for. The processes with the names in
/// `servers` may wait forever.
///
/// # Errors
///
/// Those of opening and reading inputs, of `process_numbers` and of `search_text`, and `Unsaved` if a
/// file can't be written.
pub(crate) fn search<'a, H: Clock + Eprint + Files + Input + Print + Sync + Threads>(
    rt: &H,
    alloc: Global,
    file: &'a str,
    input: &Inputs<'a>,
    servers: &[&'a str],
    how: Searching,
    save: Option<&'a str>,
    screen: Screen,
) -> Result<u8, Failure<'a>> {
    let names = match save {
        Some(name) => Some(Names::of(alloc, name)?),
        None => None,
    };
    let Sources { text, inputs } = match how.form {
        SearchForm::Json => open_judged(rt, alloc, file, input)?,
        SearchForm::Lines => open_sources(rt, alloc, file, input)?,
    };
    let servers = process_numbers(alloc, &text, servers)?;
    let inputs = inputs.read(alloc, &text)?;
    let searched = print_search(rt, alloc, &text, &inputs, &servers, how, screen)?;
    if let Some(names) = names {
        names.save(rt, &searched.findings)?;
    }
    Ok(status_of(searched.verdict))
}
