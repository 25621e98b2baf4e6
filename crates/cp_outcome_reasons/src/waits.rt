//! Who waits for whom, as a graph for Graphviz: an arrow leads from a process to the monitor that
//! it asks for or that it is delayed in, from a monitor to the process that holds it, and, dotted,
//! from a monitor to the processes that alone could continue one of its queues. A circle is red.
//! Variables are in a note.

ghost use Rattle.std.specs.Prelude.{◌≡◌, ◌<◌, IfOk, length};
ghost use Rattle.cp_outcome_reasons.specs.Graphs.{graph};

use crate::delays::Delay;
use crate::names::{Source, Subject};
use crate::shown::{Setting, push_shown};
use crate::snapshot::ProcessSnapshot;
use crate::states::word_of;
use cp_inspect::state::ProcState;
use cp_outcome_variables::variables::Variable;
use cp_output::graphviz::{push_arrow, push_node};
use cp_output::page::Page;
use cp_private::kernel_view::Holder;
use std::alloc::{AllocError, Global};

// Adds the colour of what is in a circle.
fn push_red(page: &mut Page, is_red: bool) {
    if is_red {
        page.text(", color=red");
    }
}

impl<'t> Subject<'_, 't> {
    // The node of a process. The node of process 1 has a blank, which no name of a text has.
    fn node_of(&self, number: u32) -> &[u8] {
        if number == 1 {
            return b"initial process";
        }
        self.component_table.process_name(number)
    }

    // Adds a process, unless it has ended.
    fn add_process(&self, page: &mut Page, process: &ProcessSnapshot) {
        if process.has_ended() {
            return;
        }
        page.text("  ");
        push_node(page, self.node_of(process.number));
        page.text(" [label=\"");
        page.bytes(self.component_table.process_name(process.number));
        page.text("\\n");
        page.text(word_of(process.state));
        page.text("\", shape=ellipse");
        push_red(page, self.link(process.number).is_some());
        page.text("];\n");
    }

    fn add_monitor(&self, page: &mut Page, monitor: u32) {
        page.text("  ");
        push_node(page, self.component_table.monitor_name(monitor));
        page.text(" [shape=box");
        push_red(page, self.circle.iter().any(|link| link.monitor == monitor));
        page.text("];\n");
    }

    // Adds an arrow from a process to a monitor, up to its attributes or the `;` after it.
    fn push_waiting_arrow(&self, page: &mut Page, process: u32, monitor: u32) {
        push_arrow(
            page,
            self.node_of(process),
            self.component_table.monitor_name(monitor),
        );
    }

    // Adds what a process waits for.
    fn add_wait(&self, page: &mut Page, process: &ProcessSnapshot) {
        let is_red = self.link(process.number).is_some();
        match process.state {
            ProcState::Asking(monitor) => {
                self.push_waiting_arrow(page, process.number, monitor);
                page.text(if is_red { " [color=red];\n" } else { ";\n" });
            }
            ProcState::Delayed { monitor, .. } => {
                self.push_waiting_arrow(page, process.number, monitor);
                page.text(" [label=\"");
                self.push_label(page, process.number);
                page.text("\", style=dashed");
                push_red(page, is_red);
                page.text("];\n");
            }
            _ => {}
        }
    }

    // Adds the queue in which a process is delayed.
    fn push_label(&self, page: &mut Page, process: u32) {
        if let Some(delay) = self.delay(process) {
            page.bytes(&delay.queue);
        }
    }

    // Whether the circle leads from a process by a monitor to another process.
    fn leads(&self, process: u32, other: u32) -> bool {
        matches!(self.link(process), Some((_, next)) if next == other)
    }

    // Adds a dotted arrow from the monitor in which a process is delayed to one that could continue
    // it.
    fn add_helper(&self, page: &mut Page, delay: &Delay, process: u32, helper: u32) {
        push_arrow(
            page,
            self.component_table.monitor_name(delay.monitor),
            self.node_of(helper),
        );
        page.text(" [label=\"");
        page.bytes(&delay.queue);
        page.text("\", style=dotted");
        push_red(page, self.leads(process, helper));
        page.text("];\n");
    }

    // Adds the dotted arrows to those that could continue a process, if it is delayed.
    fn add_helpers(&self, page: &mut Page, process: u32) {
        if let Some(delay) = self.delay(process) {
            for helper in delay.callers.iter().chain(&delay.insiders) {
                self.add_helper(page, delay, process, *helper);
            }
        }
    }

    // Whether the circle leads through a monitor, by its gate, to the process that holds it.
    fn is_asked_in_circle(&self, monitor: u32, holder: u32) -> bool {
        self.circle.iter().any(|link| {
            link.monitor == monitor
                && self.leads(link.process, holder)
                && self.delay(link.process).is_none()
        })
    }

    fn add_holder(&self, page: &mut Page, monitor: u32, holder: Holder) {
        if let Holder::Process(number) = holder {
            push_arrow(
                page,
                self.component_table.monitor_name(monitor),
                self.node_of(number),
            );
            page.text(if self.is_asked_in_circle(monitor, number) {
                " [color=red];\n"
            } else {
                ";\n"
            });
        }
    }

    fn add_processes(&self, page: &mut Page) {
        for process in &self.snapshot.processes {
            self.add_process(page, process);
        }
    }

    fn add_monitors(&self, page: &mut Page) {
        for monitor in &self.snapshot.monitors {
            if self.snapshot.is_used(monitor) {
                self.add_monitor(page, monitor.number);
            }
        }
    }

    fn add_waits(&self, page: &mut Page) {
        for process in &self.snapshot.processes {
            self.add_wait(page, process);
        }
    }

    fn add_all_helpers(&self, page: &mut Page) {
        for process in &self.snapshot.processes {
            self.add_helpers(page, process.number);
        }
    }

    fn add_holders(&self, page: &mut Page) {
        for monitor in &self.snapshot.monitors {
            self.add_holder(page, monitor.number, monitor.holder);
        }
    }

    // Adds a note with variables, if there are any. Its name has a blank, which no name of a text
    // has.
    fn add_note(&self, page: &mut Page, shown: &[Variable]) -> Result<(), AllocError> {
        if shown.is_empty() {
            return Ok(());
        }
        page.text("  ");
        push_node(page, b"shown variables");
        page.text(" [label=\"");
        push_shown(self.alloc, page, shown, Setting::Label)?;
        page.text("\", shape=note];\n");
        Ok(())
    }

    // The nodes and the arrows.
    fn drawn(&self, shown: &[Variable]) -> Result<Vec<u8>, AllocError> {
        let mut page = Page::new(self.alloc);
        self.add_processes(&mut page);
        self.add_monitors(&mut page);
        self.add_waits(&mut page);
        self.add_holders(&mut page);
        self.add_all_helpers(&mut page);
        self.add_note(&mut page, shown)?;
        page.finish()
    }
}

// The graph with this body.
fn graph_of(alloc: Global, body: &[u8]) -> Result<Vec<u8>, AllocError>
    ensures whole { IfOk result (λ bytes. bytes.items ≡ graph body.now) }
    ensures some { IfOk result (λ bytes. 0 < length bytes.items) }
{
    let mut bytes = Vec::new(alloc);
    bytes.extend_from_slice(b"digraph outcome {\n")?;
    bytes.extend_from_slice(body)?;
    bytes.extend_from_slice(b"}\n")?;
    Ok(bytes)
}

/// Who waits for whom in a machine, as a graph for Graphviz: its processes that haven't
/// ended, and its monitors that are held, asked for or waited in. These variables are in a note.
///
/// # Errors
///
/// `AllocError` if memory runs out.
pub fn waits(
    alloc: Global,
    source: Source<'_, '_>,
    shown: &[Variable],
) -> Result<Vec<u8>, AllocError>
    ensures some { IfOk result (λ bytes. 0 < length bytes.items) }
{
    let subject = Subject::of(alloc, source)?;
    graph_of(alloc, &subject.drawn(shown)?)
}
