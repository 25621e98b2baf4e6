//! The lines of a search.

use crate::findings::{Finding, Findings, Found, Subject};
use crate::names::Names;
use crate::story::count;
use cp_base_schedule::reading::MAX_SCHEDULE_BYTES;
use cp_outcome_reasons::names::Source;
use cp_outcome_reasons::reasons::reasons;
use cp_output::page::Page;
use cp_search::notes::Stop;
use std::alloc::{AllocError, Global};

// The limits of a search, as they were given: the largest number of states, and the memory that
// they may take.
#[derive(Clone, Copy)]
pub struct GivenLimits {
    pub states: u32,
    /// In MB.
    pub memory: u32,
}

// The words for a kind of schedule.
#[derive(Clone, Copy)]
struct Kind {
    found: &'static str,
    none: &'static str,
    none_seen: &'static str,
}

const STUCK: Kind = Kind {
    found: "stuck by some schedules",
    none: "no schedule gets stuck",
    none_seen: "no schedule was seen to get stuck",
};

const FAULT: Kind = Kind {
    found: "fault by some schedules",
    none: "no schedule faults",
    none_seen: "no schedule was seen to fault",
};

// Adds how many things of this name there are.
fn push_count(page: &mut Page, count: usize, name: &str) {
    match count {
        0 => page.text("no"),
        _ => page.number(count),
    }
    page.text(" ");
    page.text(name);
    if count != 1 {
        page.text("s");
    }
}

impl Names<'_, '_> {
    // Adds a schedule, and why each process is where it leads.
    fn push_schedule(&self, page: &mut Page, found: &Found) -> Result<(), AllocError> {
        let calls = &found.schedule.calls;
        let count = count(calls);
        page.text(": the shortest has ");
        push_count(page, count, "call");
        page.text("\n");
        self.push_calls(page, calls)?;
        let source = Source {
            bytes: self.subject.bytes,
            tree: self.subject.tree,
            tables: self.subject.tables,
            snapshot: &found.snapshot,
            servers: self.subject.servers,
        };
        page.bytes(&reasons(self.alloc, source, None, &[])?);
        Ok(())
    }

    // Adds a schedule of a kind, if one was found.
    fn push_finding(
        &self,
        page: &mut Page,
        kind: Kind,
        finding: &Finding,
    ) -> Result<(), AllocError> {
        if finding.is_found() {
            page.text(kind.found);
        }
        match finding {
            Finding::None => {}
            Finding::Schedule(found) => self.push_schedule(page, found)?,
            Finding::TooLong => {
                page.text(", it seems: the shortest is too long to be replayed, with more than ");
                page.number(MAX_SCHEDULE_BYTES);
                page.text(" bytes\n");
            }
            Finding::Defect => page.text(", but its replay doesn't: a defect of cpm\n"),
        }
        Ok(())
    }

    // The name of a process. There are fewer than 2^32 processes.
    fn process_name(&self, process: usize) -> &[u8] {
        match u32::try_from(process) {
            Ok(number) => self.components.process_name(number),
            Err(_) => &[],
        }
    }

    // Adds why not all states were seen.
    fn push_stop(&self, page: &mut Page, findings: &Findings, stop: Stop, limits: GivenLimits) {
        page.text("running: ");
        match stop {
            Stop::Clock => page.text("the program uses the clock"),
            Stop::States => {
                page.text("there are more than ");
                page.number(limits.states as usize);
                page.text(" states");
            }
            Stop::Memory => {
                page.number(findings.states);
                page.text(" states take ");
                page.number(limits.memory as usize);
                page.text(" MB, and there are more");
            }
            Stop::Forever(process) => {
                page.text("process ");
                page.number(process);
                page.text(" ");
                page.bytes(self.process_name(process));
                page.text(" computes forever, or for too long");
            }
            Stop::Defect => page.text("a process has no state: a defect of cpm"),
        }
        page.text("\n");
    }
}

// Adds which kinds of schedules were not found.
fn push_others(page: &mut Page, findings: &Findings) {
    let is_bad = findings.stuck.is_found() || findings.fault.is_found();
    let is_all = findings.stop.is_none();
    match (findings.has_ended, is_bad) {
        (true, true) => page.text("ended by others\n"),
        (true, false) => page.text("ended by some schedules\n"),
        (false, _) if is_all => page.text("no schedule ends\n"),
        (false, _) => page.text("no schedule was seen to end\n"),
    }
    for (kind, finding) in [(STUCK, &findings.stuck), (FAULT, &findings.fault)] {
        if !finding.is_found() {
            page.text(if is_all { kind.none } else { kind.none_seen });
            page.text("\n");
        }
    }
}

/// The lines of a search: the shortest schedules that it has found, and how much was seen.
///
/// # Errors
///
/// `AllocError` if memory runs out.
pub fn report(
    alloc: Global,
    subject: Subject<'_, '_>,
    findings: &Findings,
    limits: GivenLimits,
) -> Result<Vec<u8>, AllocError> {
    let names = Names::of(alloc, subject)?;
    let mut page = Page::new(alloc);
    names.push_finding(&mut page, FAULT, &findings.fault)?;
    names.push_finding(&mut page, STUCK, &findings.stuck)?;
    if 0 < findings.states {
        push_others(&mut page, findings);
    }
    match findings.stop {
        None if findings.states == 1 => page.text("the only state seen\n"),
        None => {
            page.text("all ");
            push_count(&mut page, findings.states, "state");
            page.text(" seen\n");
        }
        Some(stop) => names.push_stop(&mut page, findings, stop, limits),
    }
    page.finish()
}
