//! The processes and monitors that a trace reports, and their names.

use cp_compile_symbols::small_number;
use cp_inspect::component_table::{ComponentTable, Owner};
use std::alloc::{AllocError, Global};

/// The bytes of a name, a path or a transcript as a string. They are ASCII, as texts are.
pub(crate) fn word(bytes: &[u8]) -> &str {
    str::from_utf8(bytes).unwrap_or("")
}

/// The name of a process or monitor.
pub(crate) fn name_of<'t>(component_table: &ComponentTable<'t>, owner: Owner) -> &'t str {
    word(match owner {
        Owner::Process(number) => component_table.process_name(number),
        Owner::Monitor(number) => component_table.monitor_name(number),
    })
}

// All processes by number, and then all monitors.
fn all(alloc: Global, component_table: &ComponentTable<'_>) -> Result<Vec<Owner>, AllocError> {
    // The table has no initial process.
    let processes = small_number(component_table.processes.len().saturating_add(1))?;
    let monitors = small_number(component_table.monitors.len())?;
    (1..=processes)
        .map(Owner::Process)
        .chain((1..=monitors).map(Owner::Monitor))
        .collect(alloc)
}

/// The processes by number, and then the monitors: those with names in `only`, or all if it is
/// empty. A name that no process or monitor has selects none.
///
/// # Errors
///
/// `AllocError` if memory runs out.
pub(crate) fn chosen(
    alloc: Global,
    component_table: &ComponentTable<'_>,
    only: &[&str],
) -> Result<Vec<Owner>, AllocError> {
    let mut all = all(alloc, component_table)?;
    if only.is_empty() {
        return Ok(all);
    }
    let mut named = Vec::new(alloc);
    for name in only {
        if let Some(owner) = component_table.owner(name.as_bytes())? {
            named.push(owner)?;
        }
    }
    all.retain(|owner| named.contains(owner));
    Ok(all)
}
