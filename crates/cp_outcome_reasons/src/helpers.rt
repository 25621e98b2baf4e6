//! Who could continue a process that is delayed, in words, and why the others can't.

use crate::delays::Delay;
use crate::names::Subject;
use cp_inspect::state::ProcState;
use cp_output::page::Page;
use std::alloc::{AllocError, Global};

/// The words before an item of a list with so many items, such as `a, b and c`.
pub(crate) fn separator(index: usize, count: usize) -> &'static str {
    if index == 0 {
        ""
    } else if index.saturating_add(1) == count {
        " and "
    } else {
        ", "
    }
}

/// Why a process can't continue another one any more.
#[derive(Clone, Copy, PartialEq, Eq)]
pub(crate) enum Hindrance {
    Ended,
    Faulted,
    /// It isn't started, and won't be.
    Unstarted,
    /// It has made its last call of the entry.
    Past,
}

/// All hindrances, in the order in which they are reported.
const HINDRANCES: [Hindrance; 4] = [
    Hindrance::Ended,
    Hindrance::Faulted,
    Hindrance::Unstarted,
    Hindrance::Past,
];

impl Hindrance {
    /// Why a process in this state can't.
    pub(crate) fn of(state: ProcState) -> Hindrance {
        match state {
            ProcState::Ended => Hindrance::Ended,
            ProcState::Faulted(_) => Hindrance::Faulted,
            ProcState::Unstarted => Hindrance::Unstarted,
            _ => Hindrance::Past,
        }
    }

    /// The word for it in an object.
    pub(crate) fn word(self) -> &'static str {
        match self {
            Hindrance::Ended => "ended",
            Hindrance::Faulted => "fault",
            Hindrance::Unstarted => "unstarted",
            Hindrance::Past => "past",
        }
    }

    // The words for one or more processes.
    fn words(self, is_one: bool) -> &'static str {
        match (self, is_one) {
            (Hindrance::Ended, true) => " has ended",
            (Hindrance::Ended, false) => " have ended",
            (Hindrance::Faulted, true) => " has faulted",
            (Hindrance::Faulted, false) => " have faulted",
            (Hindrance::Unstarted, true) => " is never started",
            (Hindrance::Unstarted, false) => " are never started",
            (Hindrance::Past, true) => " is past its last call",
            (Hindrance::Past, false) => " are past their last calls",
        }
    }
}

// The words between the processes that call entries and what keeps them from it.
fn who_call(is_one_process: bool, is_one_entry: bool) -> &'static str {
    match (is_one_process, is_one_entry) {
        (true, true) => ", who calls it,",
        (true, false) => ", who calls them,",
        (false, true) => ", who call it,",
        (false, false) => ", who call them,",
    }
}

impl<'t> Subject<'_, 't> {
    // Adds the names of processes.
    fn push_names(&self, page: &mut Page, processes: &[u32]) {
        for (index, number) in processes.iter().enumerate() {
            page.text(separator(index, processes.len()));
            page.bytes(self.component_table.process_name(*number));
        }
    }

    /// Why a process can't continue another one any more.
    pub(crate) fn hindrance(&self, process: u32) -> Hindrance {
        match self.snapshot.process(process) {
            Some(snapshot) => Hindrance::of(snapshot.state),
            None => Hindrance::Past,
        }
    }

    // Those of these processes that have a hindrance.
    fn hindered(
        &self,
        alloc: Global,
        processes: &[u32],
        hindrance: Hindrance,
    ) -> Result<Vec<u32>, AllocError> {
        let mut hindered = Vec::new(alloc);
        for number in processes {
            if self.hindrance(*number) == hindrance {
                hindered.push(*number)?;
            }
        }
        Ok(hindered)
    }

    // Adds why those who call the entries can't any more.
    fn push_hindered(&self, page: &mut Page, delay: &Delay) -> Result<(), AllocError> {
        for hindrance in HINDRANCES {
            let hindered = self.hindered(self.alloc, &delay.past, hindrance)?;
            if !hindered.is_empty() {
                let is_one = hindered.len() == 1;
                page.text("; ");
                self.push_names(page, &hindered);
                page.text(who_call(is_one, delay.entries.len() == 1));
                page.text(hindrance.words(is_one));
            }
        }
        Ok(())
    }

    // Adds who could continue a process: who can call the entries, and who is inside of one.
    fn push_helpers(&self, page: &mut Page, delay: &Delay) {
        page.text(", which ");
        self.push_names(page, &delay.callers);
        if !delay.callers.is_empty() {
            page.text(" can call");
        }
        if !delay.callers.is_empty() && !delay.insiders.is_empty() {
            page.text(" and ");
        }
        self.push_names(page, &delay.insiders);
        match delay.insiders.len() {
            0 => {}
            1 => page.text(" is in"),
            _ => page.text(" are in"),
        }
    }

    // Adds the entries that continue a process.
    fn push_entries(&self, page: &mut Page, delay: &Delay) {
        page.text("; only ");
        for (index, entry) in delay.entries.iter().enumerate() {
            page.text(separator(index, delay.entries.len()));
            page.bytes(self.component_table.monitor_name(delay.monitor));
            page.text(".");
            page.bytes(entry.name.as_bytes());
        }
        page.text(if delay.entries.len() == 1 {
            " continues it"
        } else {
            " continue it"
        });
    }

    /// Adds what can continue a process, and who could do that. Fails only if memory runs out.
    pub(crate) fn push_continuation(
        &self,
        page: &mut Page,
        delay: &Delay,
    ) -> Result<(), AllocError> {
        if delay.entries.is_empty() {
            page.text("; nothing continues it");
            return Ok(());
        }
        self.push_entries(page, delay);
        if !delay.callers.is_empty() || !delay.insiders.is_empty() {
            self.push_helpers(page, delay);
            return Ok(());
        }
        if delay.past.is_empty() {
            page.text(", which no other process calls");
        }
        self.push_hindered(page, delay)
    }
}
