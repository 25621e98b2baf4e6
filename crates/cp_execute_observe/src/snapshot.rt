//! Where the processes of a machine are, and who is at its monitors.

use cp_compile_symbols::{Field, small_number};
use cp_inspect::component_table::ComponentTable;
use cp_inspect::state::ProcState;
use cp_inspect::status::push_queue;
use cp_inspect::walk::Walk;
use cp_outcome::transcript::transcript;
use cp_outcome_calls::activation::Activation;
use cp_outcome_calls::continuing::{Remainder, Stage, continue_sites};
use cp_outcome_calls::places::call_places;
use cp_outcome_calls::words::{Waiting, Words};
use cp_outcome_reasons::snapshot::{MonitorSnapshot, ProcessSnapshot, Site, StatusSnapshot};
use cp_private::positions::Position;
use cp_private::private::{Activity, Private};
use cp_program::operation::Operation;
use cp_program::program::Process;
use cp_rounds::machine::Machine;
use std::alloc::{AllocError, Global};

// What an operation comes from.
fn site_of(operation: Option<&Operation>) -> Site {
    match operation {
        Some(
            Operation::Function { .. }
            | Operation::InitClass { .. }
            | Operation::InitMonitor { .. }
            | Operation::InitProcess { .. },
        ) => Site::Call,
        Some(Operation::Return { .. }) => Site::EndOfRoutine,
        Some(Operation::EndBody | Operation::End) => Site::EndOfBody,
        _ => Site::Statement,
    }
}

// The number of the operation at which a process in a state is, if it has begun and hasn't ended.
fn operation_of(private: &Private, state: ProcState) -> Option<u32> {
    match state {
        ProcState::Unstarted | ProcState::Ended => None,
        ProcState::Asking(_) | ProcState::Delayed { .. } | ProcState::Waiting => {
            Some(private.pause())
        }
        ProcState::Fresh | ProcState::Ready | ProcState::Faulted(_) => Some(private.counter()),
    }
}

// Where in the text a process in a state is, and what is there.
fn place_of(machine: &Machine, number: u32, state: ProcState) -> Option<(usize, Site)> {
    let operation = operation_of(machine.private(number as usize)?, state)?;
    let program = machine.program();
    Some((
        program.origin(operation)?,
        site_of(program.operation(operation)),
    ))
}

// The path of the queue in which a process in a state is delayed, or no bytes.
fn queue_of(
    alloc: Global,
    machine: &Machine,
    monitors: &[Field<'_>],
    state: ProcState,
) -> Result<Vec<u8>, AllocError> {
    let mut path = Vec::new(alloc);
    if let ProcState::Delayed { queue, .. } = state {
        let (tables, program) = (machine.tables(), machine.program());
        let mut walk = Walk::new(alloc, 0);
        push_queue(
            &mut walk,
            tables,
            program,
            monitors,
            queue as usize,
            &mut path,
        )?;
    }
    Ok(path)
}

// Where a process is.
fn process_snapshot(
    alloc: Global,
    machine: &Machine,
    monitors: &[Field<'_>],
    number: u32,
) -> Result<ProcessSnapshot, AllocError> {
    let state = machine.state(number);
    let (at, site) = match place_of(machine, number, state) {
        Some((at, site)) => (Some(at), site),
        None => (None, Site::Statement),
    };
    Ok(ProcessSnapshot {
        number,
        state,
        at,
        site,
        called_at: Vec::new(alloc),
        queue: queue_of(alloc, machine, monitors, state)?,
        transcript: transcript(alloc, machine, number)?,
        continues: Vec::new(alloc),
    })
}

fn process_snapshots(
    alloc: Global,
    machine: &Machine,
    monitors: &[Field<'_>],
) -> Result<Vec<ProcessSnapshot>, AllocError> {
    let mut processes = Vec::new(alloc);
    for index in 0..machine.processes() {
        let number = small_number(index + 1)?;
        processes.push(process_snapshot(alloc, machine, monitors, number)?)?;
    }
    Ok(processes)
}

fn monitor_snapshots(
    alloc: Global,
    machine: &Machine,
    count: usize,
) -> Result<Vec<MonitorSnapshot>, AllocError> {
    let mut monitors = Vec::new(alloc);
    for number in 1..=small_number(count)? {
        monitors.push(MonitorSnapshot {
            number,
            holder: machine.gate(number),
            is_asked: !machine.askers(number).is_empty(),
        })?;
    }
    Ok(monitors)
}

fn activation_of(position: Position) -> Activation {
    Activation {
        operation: position.operation,
        component: position.component,
    }
}

// Where the activations of a process continue, outermost first.
fn activations_of(alloc: Global, private: &Private) -> Result<Vec<Activation>, AllocError> {
    let mut activations = Vec::new(alloc);
    for index in 0..usize::MAX {
        match private.caller(index) {
            Some(position) => activations.push(activation_of(position))?,
            None => break,
        }
    }
    activations.push(activation_of(private.position()))?;
    Ok(activations)
}

// Whether a process in a state can still make a step.
fn stage_of(state: ProcState) -> Stage {
    match state {
        ProcState::Unstarted => Stage::Unstarted,
        ProcState::Ended | ProcState::Faulted(_) => Stage::Over,
        ProcState::Asking(_) => Stage::Asking,
        _ => Stage::Alive,
    }
}

// The words that a process's parameters have before it begins.
fn waiting_of(process: &Process) -> Waiting {
    Waiting {
        start: process.parameters as usize,
        count: process.waiting as usize,
    }
}

// A process, and what is left of it.
fn remainder_of<'m>(
    alloc: Global,
    machine: &'m Machine,
    private: &'m Private,
    number: u32,
) -> Result<Remainder<'m>, AllocError> {
    let (body, waiting) = match machine.program().process(number as usize) {
        Some(process) => (process.body, waiting_of(process)),
        None => (u32::MAX, Waiting { start: 0, count: 0 }),
    };
    let waiting = match private.activity() {
        Activity::NotBegun => Some(waiting),
        _ => None,
    };
    Ok(Remainder {
        words: Words {
            process: number,
            own: private.all_words(),
            shared: machine.kernel().all_words(),
            waiting,
        },
        body,
        activations: activations_of(alloc, private)?,
        stage: stage_of(machine.state(number)),
    })
}

// What is left of each process.
fn remainders<'m>(alloc: Global, machine: &'m Machine) -> Result<Vec<Remainder<'m>>, AllocError> {
    let mut all = Vec::new(alloc);
    for index in 0..machine.processes() {
        let number = small_number(index + 1)?;
        if let Some(private) = machine.private(index + 1) {
            all.push(remainder_of(alloc, machine, private, number)?)?;
        }
    }
    Ok(all)
}

// Whether a process is delayed.
fn has_delayed(processes: &[ProcessSnapshot]) -> bool {
    processes.iter().any(|process| matches!(process.state, ProcState::Delayed { .. }))
}

// Adds where processes have been called and, if one is delayed, which `continue` statements they
// have.
fn add_calls(
    alloc: Global,
    machine: &Machine,
    processes: &mut Vec<ProcessSnapshot>,
) -> Result<(), AllocError> {
    let remainders = remainders(alloc, machine)?;
    let program = machine.program();
    for (process, calls) in processes
        .iter_mut()
        .zip(call_places(alloc, program, &remainders)?)
    {
        process.called_at = calls;
    }
    if has_delayed(processes) {
        for (process, sites) in processes
            .iter_mut()
            .zip(continue_sites(alloc, program, &remainders)?)
        {
            process.continues = sites;
        }
    }
    Ok(())
}

/// Where the processes of a machine are, and who is at its monitors.
///
/// # Errors
///
/// `AllocError` if memory runs out.
pub fn snapshot_of(alloc: Global, machine: &Machine) -> Result<StatusSnapshot, AllocError> {
    let component_table = ComponentTable::of(alloc, machine.tables())?;
    let mut processes = process_snapshots(alloc, machine, &component_table.monitors)?;
    add_calls(alloc, machine, &mut processes)?;
    Ok(StatusSnapshot {
        rounds: machine.rounds(),
        processes,
        monitors: monitor_snapshots(alloc, machine, component_table.monitors.len())?,
    })
}
