//! How the private turns of rounds are shared out: how many threads are woken for those of a round,
//! and how many chunks are drawn at once.

ghost use Rattle.std.specs.Prelude.{◌≡◌};

use cp_base_config::limits::MAX_CHUNK_PROCESSES;
use cp_base_config::plan::Plan;
use cp_base_config::turn::Turn;

// How many steps make it worth waking a thread.
const STEPS_A_THREAD: u64 = 5_000;

// How many steps make it worth drawing: to draw a chunk, and to hand its private states from thread
// to thread, takes as long as some 30 steps.
const STEPS_A_DRAW: usize = 800;

// How often each worker draws in a round, at least, so that all end at about the same time.
const DRAWS_A_WORKER: usize = 8;

/// How many threads, besides the calling one, are worth waking for so many private turns in each of
/// so many rounds: all of them if the hook has to be called for each process, none if there is one
/// turn at most, and otherwise at least one.
pub fn helpers(turns: usize, of_all: bool, turn: Turn, rounds: u32) -> usize {
    if of_all {
        return usize::MAX;
    }
    if turns <= 1 {
        return 0;
    }
    let steps = u64::from(turn.steps()) * u64::from(rounds);
    ((turns as u64).saturating_mul(steps) / STEPS_A_THREAD).max(1) as usize
}

/// How the private turns of a round are shared out.
#[derive(Clone, Copy)]
pub struct Shares {
    /// Of how many rounds, at most, turns are made at once.
    pub rounds: u32,
    /// How many turns are at the handoff queue.
    pub turns: usize,
    /// How many threads are worth waking besides the calling one.
    pub helpers: usize,
    /// Whether the calling thread makes them alone, each where its private state is.
    pub alone: bool,
}

// How many chunks of a plan are drawn at once in rounds of so many processes.
fn chunks_at_once(plan: &Plan, processes: usize) -> usize {
    let chunk = plan.chunk as usize;
    let steps = chunk.saturating_mul(plan.turn.steps() as usize);
    let draws = DRAWS_A_WORKER.saturating_mul(plan.workers as usize);
    let worth = STEPS_A_DRAW / steps.max(1);
    let most = processes / draws.saturating_mul(chunk).max(1);
    worth.min(most).max(1)
}

/// The plan by which threads draw in rounds of so many processes. If the hook does nothing, nobody
/// can observe which thread makes a turn: chunks of few steps are then drawn several at once, as
/// larger ones.
pub fn drawn_plan(plan: &Plan, processes: usize, allows_batching: bool) -> Plan
    ensures turn { result.turn ≡ plan.now.turn }
{
    if !allows_batching {
        return *plan;
    }
    let chunk = (plan.chunk as usize).saturating_mul(chunks_at_once(plan, processes));
    Plan {
        turn: plan.turn,
        workers: plan.workers,
        chunk: chunk.max(1).min(MAX_CHUNK_PROCESSES as usize) as u32,
        wave: plan.wave,
    }
}
