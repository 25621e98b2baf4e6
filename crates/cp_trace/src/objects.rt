//! Changes as objects for programs, a line each.

ghost use Rattle.std.specs.Prelude.{OnOk};
ghost use Rattle.cp_trace.specs.Reporting.{Adds, AreObjects};

use crate::changes::{Change, Changes};
use cp_inspect::component_table::Owner;
use cp_output::object::{FORMAT, line};
use serde::Serialize;
use std::alloc::{AllocError, Global};

// A change, with the process or the monitor whose change it is, by number and by name.
#[derive(Drop, Serialize)]
struct ChangeObject<'a, 't> {
    format: u32,
    round: u64,
    #[serde(skip_serializing_if = "Option::is_none")]
    process: Option<u32>,
    #[serde(skip_serializing_if = "Option::is_none")]
    monitor: Option<u32>,
    name: &'t str,
    change: &'static str,
    #[serde(flatten)]
    values: &'a Change<'t>,
}

// Adds an object for each change of a process or a monitor.
fn push_each(
    alloc: Global,
    round: u64,
    changes: &Changes<'_>,
    out: &mut Vec<u8>,
) -> Result<(), AllocError>
    ensures { OnOk result (Adds AreObjects out.old.items out.new.items) }
{
    let (process, monitor) = match changes.owner {
        Owner::Process(number) => (Some(number), None),
        Owner::Monitor(number) => (None, Some(number)),
    };
    for change in &changes.changes {
        let object = ChangeObject {
            format: FORMAT,
            round,
            process,
            monitor,
            name: changes.name,
            change: change.kind(),
            values: change,
        };
        out.extend_from_slice(&line(alloc, &object)?)?;
    }
    Ok(())
}

/// Adds an object for each change of processes and monitors in a round.
///
/// # Errors
///
/// `AllocError` if memory runs out.
pub(crate) fn push_objects(
    alloc: Global,
    round: u64,
    all: &[Changes<'_>],
    out: &mut Vec<u8>,
) -> Result<(), AllocError>
    ensures { OnOk result (Adds AreObjects out.old.items out.new.items) }
{
    for changes in all {
        push_each(alloc, round, changes, out)?;
    }
    Ok(())
}
