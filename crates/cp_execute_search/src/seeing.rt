//! The search of a program, and the schedules of the states that it has found.

ghost use Rattle.std.specs.Prelude.{◌≡◌, IfOk, None, true};
ghost use Rattle.cp_frontend.specs.Inputs.{inputs_of};
ghost use Rattle.cp_execute_search.specs.Searches.{IsSeen};

use cp_base_config::search::Searching;
use cp_base_config::turn::Turn;
use cp_frontend::inputs::ProcessInputs;
use cp_program::program::Program;
use cp_search::notes::{Limits, Notes, Stop};
use cp_search::search::{Explored, Watch, search};
use cp_search_schedule::recording::{Recorded, record};
use cp_search_states::settling::StepLimit;
use std::alloc::{AllocError, Global};
use std::thread::Threads;

// How far each state is followed: 100 million private steps, or a million others.
const STEP_LIMIT: StepLimit = StepLimit {
    turn: Turn { steps: 100 },
    turns: 1_000_000,
};

const BYTES_OF_MEGABYTE: usize = 1_000_000;

/// What a search has seen.
#[derive(Drop)]
pub(crate) struct Seen {
    /// The schedule that leads to the first state of each kind.
    pub(crate) stuck: Option<Recorded>,
    pub(crate) fault: Option<Recorded>,
    pub(crate) has_ended: bool,
    pub(crate) states: usize,
    pub(crate) transitions: u64,
    pub(crate) stop: Option<Stop>,
}

fn limits_of(how: Searching, workers: u32) -> Limits {
    Limits {
        step_limit: STEP_LIMIT,
        states: how.states,
        memory: (how.memory as usize).saturating_mul(BYTES_OF_MEGABYTE),
        workers,
    }
}

// Why not all is known. A search that has seen all states has found a bad one, or all are fine.
fn stop_of(explored: &Explored) -> Option<Stop>
    ensures { result ≡ None → explored.now.kinds.stuck ≡ None → explored.now.kinds.fault ≡ None
        → explored.now.is_fine ≡ true }
{
    let is_known = explored.is_fine
        || explored.kinds.stuck.is_some()
        || explored.kinds.fault.is_some();
    match explored.notes.stop {
        Some(stop) => Some(stop),
        None if is_known => None,
        None => Some(Stop::Defect),
    }
}

// The schedule that leads to the state at an index, if there is an index.
fn record_at(
    alloc: Global,
    program: &Program,
    inputs: &[Vec<u8>],
    notes: &Notes,
    index: Option<usize>,
) -> Result<Option<Recorded>, AllocError>
    ensures { IfOk result (λ recorded. recorded ≡ None → index ≡ None) }
{
    let Some(index) = index else {
        return Ok(None);
    };
    let callers = notes.callers(alloc, index)?;
    Ok(Some(record(alloc, program, inputs, &callers)?))
}

/// Searches all schedules of a program whose processes read these inputs. The servers, by their
/// numbers, may wait forever.
///
/// # Errors
///
/// `AllocError` if memory runs out.
pub(crate) fn see<R: Threads + Sync, V: Watch>(
    rt: &R,
    alloc: Global,
    program: &Program,
    inputs: &ProcessInputs,
    servers: &[u32],
    how: Searching,
    workers: u32,
    watch: &V,
) -> Result<Seen, AllocError>
    ensures { IfOk result (IsSeen servers.now program.now (inputs_of inputs.now)) }
{
    let inputs = inputs.by_process(alloc, program.processes())?;
    let limits = limits_of(how, workers);
    let explored = search(rt, alloc, program, &inputs, servers, limits, watch)?;
    let stuck = record_at(
        alloc,
        program,
        &inputs,
        &explored.notes,
        explored.kinds.stuck,
    )?;
    let fault = record_at(
        alloc,
        program,
        &inputs,
        &explored.notes,
        explored.kinds.fault,
    )?;
    Ok(Seen {
        stuck,
        fault,
        has_ended: explored.kinds.ended.is_some(),
        states: explored.states,
        transitions: explored.notes.transitions,
        stop: stop_of(&explored),
    })
}
