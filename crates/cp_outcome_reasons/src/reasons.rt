//! The lines of the processes that haven't ended, and the line of a circle.

use crate::delays::Delay;
use crate::helpers::separator;
use crate::loops::Loop;
use crate::names::{Source, Subject};
use crate::shown::{Setting, push_shown};
use crate::snapshot::{ProcessSnapshot, Site};
use cp_inspect::state::ProcState;
use cp_outcome_text::starts::places_of_init;
use cp_outcome_variables::variables::Variable;
use cp_output::page::Page;
use cp_private::kernel_view::Holder;
use std::alloc::{AllocError, Global};

impl<'t> Subject<'_, 't> {
    // Adds the queue in which a process is delayed.
    fn push_queue(&self, page: &mut Page, delay: &Delay) {
        page.text("delayed in ");
        page.bytes(self.component_table.monitor_name(delay.monitor));
        page.text(".");
        page.bytes(&delay.queue);
    }

    fn push_delay(&self, page: &mut Page, process: &ProcessSnapshot) -> Result<(), AllocError> {
        let Some(delay) = self.delay(process.number) else {
            return Ok(());
        };
        self.push_queue(page, delay);
        self.push_wait(page, process);
        self.push_continuation(page, delay)
    }

    // Adds why the holder of a gate doesn't leave the monitor, if it can't.
    fn push_why_held(&self, page: &mut Page, holder: u32) {
        let Some(process) = self.snapshot.process(holder) else {
            return;
        };
        match process.state {
            ProcState::Delayed { .. } => {
                if let Some(delay) = self.delay(holder) {
                    page.text(", which is ");
                    self.push_queue(page, delay);
                }
            }
            ProcState::Asking(monitor) => {
                page.text(", which asks for ");
                page.bytes(self.component_table.monitor_name(monitor));
            }
            ProcState::Faulted(_) => page.text(", which has faulted"),
            _ => {}
        }
    }

    fn push_asking(&self, page: &mut Page, process: &ProcessSnapshot, monitor: u32) {
        page.text("asks for ");
        page.bytes(self.component_table.monitor_name(monitor));
        self.push_wait(page, process);
        if let Holder::Process(holder) = self.snapshot.holder_of(monitor) {
            page.text(", held by ");
            page.bytes(self.component_table.process_name(holder));
            self.push_why_held(page, holder);
        }
    }

    fn push_places(&self, page: &mut Page, places: &[usize]) {
        for (index, at) in places.iter().enumerate() {
            page.text(separator(index, places.len()));
            self.push_place(page, *at);
        }
    }

    // Adds which `init` starts a process that hasn't been started.
    fn push_unstarted(&self, page: &mut Page, number: u32) -> Result<(), AllocError> {
        let name = self.component_table.process_name(number);
        let places = places_of_init(self.alloc, &self.statements, name)?;
        let (lead, end) = match places.len() {
            0 => ("never started; no init names it", ""),
            1 => ("never started; only the init at ", " starts it"),
            _ => ("never started; only the inits at ", " start it"),
        };
        page.text(lead);
        self.push_places(page, &places);
        page.text(end);
        Ok(())
    }

    fn push_waiting(&self, page: &mut Page, process: &ProcessSnapshot) {
        page.text("waits for the clock");
        self.push_wait(page, process);
    }

    fn push_ready(&self, page: &mut Page, process: &ProcessSnapshot) {
        page.text(match process.site {
            Site::EndOfRoutine => "ready at the end of the routine",
            Site::EndOfBody => "ready at the end of the body",
            Site::Call | Site::Statement => "ready",
        });
        self.push_origin(page, process);
    }

    /// Adds why a process is where it is. Fails only if memory runs out.
    pub(crate) fn push_why(
        &self,
        page: &mut Page,
        process: &ProcessSnapshot,
    ) -> Result<(), AllocError> {
        match process.state {
            ProcState::Unstarted => self.push_unstarted(page, process.number)?,
            ProcState::Fresh | ProcState::Ready => self.push_ready(page, process),
            ProcState::Asking(monitor) => self.push_asking(page, process, monitor),
            ProcState::Delayed { .. } => self.push_delay(page, process)?,
            ProcState::Waiting => self.push_waiting(page, process),
            ProcState::Ended => page.text("ended"),
            ProcState::Faulted(fault) => self.push_fault(page, process, fault),
        }
        Ok(())
    }

    // Adds the line of a process, unless it has ended.
    fn push_reason(&self, page: &mut Page, process: &ProcessSnapshot) -> Result<(), AllocError> {
        if process.has_ended() {
            return Ok(());
        }
        page.text("process ");
        page.number(process.number as usize);
        page.text(" ");
        page.bytes(self.component_table.process_name(process.number));
        page.text(": ");
        self.push_why(page, process)?;
        page.text("\n");
        Ok(())
    }

    // Adds the line of the circle, if there is one.
    fn push_circle(&self, page: &mut Page) {
        let Some(first) = self.circle.first() else {
            return;
        };
        page.text("circle: ");
        for link in &self.circle {
            page.bytes(self.component_table.process_name(link.process));
            page.text(" -> ");
            if link.monitor != 0 {
                page.bytes(self.component_table.monitor_name(link.monitor));
                page.text(" -> ");
            }
        }
        page.bytes(self.component_table.process_name(first.process));
        page.text("\n");
    }
}

/// A line for each process of a machine that hasn't ended, by number: where it is, why, and
/// where in the text that is. Then comes a line for a circle, if some wait for each other, one for a
/// state that came again, and one for each of these variables.
///
/// # Errors
///
/// `AllocError` if memory runs out.
pub fn reasons(
    alloc: Global,
    source: Source<'_, '_>,
    found: Option<&Loop>,
    shown: &[Variable],
) -> Result<Vec<u8>, AllocError> {
    let subject = Subject::of(alloc, source)?;
    let mut page = Page::new(alloc);
    for process in &subject.snapshot.processes {
        subject.push_reason(&mut page, process)?;
    }
    subject.push_circle(&mut page);
    if let Some(found) = found {
        subject.push_loop(&mut page, found);
    }
    push_shown(alloc, &mut page, shown, Setting::Text)?;
    page.finish()
}
