//! The status of a process, as text.

ghost use Rattle.std.specs.Prelude.{◌≡◌, ◌++◌, ◌-◌, OnOk, map, option_map, slice_get};
ghost use Rattle.cp_model.specs.StateViews as state;
ghost use Rattle.cp_compile_symbols.specs.Representing.{entry};
ghost use Rattle.cp_program.specs.View as view;
ghost use Rattle.cp_inspect.specs.Statuses.{NamesMonitor, ReportsQueue, ReportsState, fault_text};

use crate::state::ProcState;
use crate::walk::Walk;
use crate::walk_output::WalkOutput;
use cp_base_digits::decimal::push_natural;
use cp_compile_symbols::{Field, Tables};
use cp_model::state::Fault;
use cp_program::program::Program;
use std::alloc::AllocError;

/// Adds the path of the queue at an address of the shared words.
///
/// # Errors
///
/// `AllocError` if memory runs out.
pub fn push_queue(
    walk: &mut Walk,
    tables: &Tables,
    program: &Program,
    monitors: &[Field],
    place: usize,
    out: &mut Vec<u8>,
) -> Result<(), AllocError>
    ensures { OnOk result (ReportsQueue tables.now (view.program program.now)
        (map entry monitors.now) place out.old.items out.new.items) }
{
    let walk_output = WalkOutput::PathOf(place);
    for (index, monitor) in monitors.iter().enumerate() {
        let start = program.monitor_start(index + 1);
        walk.component(tables, &walk_output, out, monitor.of, start)?;
    }
    Ok(())
}

// The monitor with this number, from 1. The number 0 is read as 1.
fn monitor_at<'m, 't>(monitors: &'m [Field<'t>], number: u32) -> Option<&'m Field<'t>>
    ensures { option_map (λ f. f.now) result ≡ slice_get monitors.now (number - 1) }
{
    monitors.get((number as usize).saturating_sub(1))
}

/// Adds the name of the monitor with this number, from 1. The number 0 is read as 1.
pub(crate) fn push_monitor(
    out: &mut Vec<u8>,
    monitors: &[Field],
    number: u32,
) -> Result<(), AllocError>
    ensures { OnOk result (NamesMonitor (map entry monitors.now) number
        out.old.items out.new.items) }
{
    match monitor_at(monitors, number) {
        Some(monitor) => out.extend_from_slice(monitor.name),
        None => Ok(()),
    }
}

/// The number of a fault, from 1 to 9.
pub fn fault_number(fault: Fault) -> u64
    ensures { result ≡ state.fault_number fault }
{
    match fault {
        Fault::Range => 1,
        Fault::Index => 2,
        Fault::Overflow => 3,
        Fault::DivisionByZero => 4,
        Fault::QueueTaken => 5,
        Fault::NotInitialised => 6,
        Fault::InitialisedTwice => 7,
        Fault::NoLabel => 8,
        Fault::NoResult => 9,
    }
}

fn push_fault(out: &mut Vec<u8>, fault: Fault) -> Result<(), AllocError>
    ensures { OnOk result (out.new.items ≡ out.old.items ++ fault_text fault) }
{
    out.extend_from_slice(b"fault ")?;
    push_natural(out, fault_number(fault))
}

/// Adds the status of a process that is in this state.
///
/// # Errors
///
/// `AllocError` if memory runs out.
pub fn push_state(
    walk: &mut Walk,
    tables: &Tables,
    program: &Program,
    monitors: &[Field],
    state: ProcState,
    out: &mut Vec<u8>,
) -> Result<(), AllocError>
    ensures { OnOk result (ReportsState tables.now (view.program program.now)
        (map entry monitors.now) state out.old.items out.new.items) }
{
    match state {
        ProcState::Unstarted => out.extend_from_slice(b"unstarted"),
        ProcState::Fresh => out.extend_from_slice(b"fresh"),
        ProcState::Ready => out.extend_from_slice(b"ready"),
        ProcState::Waiting => out.extend_from_slice(b"waiting"),
        ProcState::Ended => out.extend_from_slice(b"ended"),
        ProcState::Faulted(fault) => push_fault(out, fault),
        ProcState::Asking(monitor) => {
            out.extend_from_slice(b"asking ")?;
            push_monitor(out, monitors, monitor)
        }
        ProcState::Delayed { monitor, queue } => {
            out.extend_from_slice(b"delayed ")?;
            push_monitor(out, monitors, monitor)?;
            out.extend_from_slice(b" ")?;
            push_queue(walk, tables, program, monitors, queue as usize, out)
        }
    }
}
