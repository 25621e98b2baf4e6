//! Servers, which may wait forever: who they are, and who would have to be one for the verdict to be
//! `ended`.

use crate::names::{Source, Subject};
use crate::snapshot::StatusSnapshot;
use cp_inspect::component_table::ComponentTable;
use cp_inspect::state::ProcState;
use cp_output::page::Page;
use std::alloc::{AllocError, Global};

impl Subject<'_, '_> {
    /// Whether a process is a server.
    pub(crate) fn is_server(&self, process: u32) -> bool {
        self.servers.contains(&process)
    }
}

// The processes that are delayed, by number, if all others have ended.
fn delayed_alone(alloc: Global, snapshot: &StatusSnapshot) -> Result<Vec<u32>, AllocError> {
    let mut delayed = Vec::new(alloc);
    for process in &snapshot.processes {
        match process.state {
            ProcState::Ended => {}
            ProcState::Delayed { .. } => delayed.push(process.number)?,
            _ => return Ok(Vec::new(alloc)),
        }
    }
    Ok(delayed)
}

// Whether each of these processes is found by its name. Another process may be named `initial`.
fn have_names(component_table: &ComponentTable<'_>, processes: &[u32]) -> Result<bool, AllocError> {
    for process in processes {
        let name = component_table.process_name(*process);
        if component_table.process(name)? != Some(*process) {
            return Ok(false);
        }
    }
    Ok(true)
}

/// The line that names the processes of a machine that are delayed, if all others have ended and
/// there are no servers: if these were servers, the verdict would be `ended`. Else no bytes.
///
/// # Errors
///
/// `AllocError` if memory runs out.
pub fn without_servers(alloc: Global, source: Source<'_, '_>) -> Result<Vec<u8>, AllocError> {
    let mut page = Page::new(alloc);
    let delayed = delayed_alone(alloc, source.snapshot)?;
    let component_table = ComponentTable::of(alloc, source.tables)?;
    let is_due = source.servers.is_empty() && !delayed.is_empty();
    if is_due && have_names(&component_table, &delayed)? {
        page.text("with --servers ");
        for (index, process) in delayed.iter().enumerate() {
            page.text(if index == 0 { "" } else { "," });
            page.bytes(component_table.process_name(*process));
        }
        page.text(" the verdict would be: ended\n");
    }
    page.finish()
}
