//! Searches all schedules, breadth first.

ghost use Rattle.std.specs.Prelude.{◌≡◌, ◌≤◌, ◌<◌, ◌+◌, ℕ, List, IfOk, [], IfSome, false, true};
ghost use Rattle.cp_program.specs.View as view;
ghost use Rattle.cp_law_cores.specs.Clocks.{is_timeless};
ghost use Rattle.cp_law_exploring.specs.Exploring.{count};
ghost use Rattle.cp_search_states.specs.SearchStates.{input_of};
ghost use Rattle.cp_search_store.specs.States.{cores_of, state_count, IsSound};
ghost use Rattle.cp_search.specs.SearchResults.{HasExplored, HasExpanded, IsCoveredNow, IsReady, NothingIsStuck};
ghost use Rattle.cp_search.specs.Batches.{AreFound, IsNext};

use crate::batch::Batch;
use crate::kinds::{Kinds, kinds_of};
use crate::moving::{is_late, move_of};
use crate::notes::{Limits, Notes, Origin, Stop};
use crate::scout::{Found, Next};
use crate::space::{Space, are_fine};
use cp_law_exploring::law;
use cp_law_servers::law as served;
use cp_program::program::Program;
use cp_search_clock::timeless::is_timeless;
use cp_search_states::settling::{advance, settle};
use cp_search_states::state::SearchState;
use cp_search_store::moves::Outcome;
use std::alloc::{AllocError, Global};
use std::thread::Threads;

/// An observer of how far a search has come.
pub trait Watch {
    /// Takes note that `expanded` of the `seen` states have been expanded.
    fn note(&self, expanded: usize, seen: usize);
}

/// What a search found.
#[derive(Drop)]
pub struct Explored {
    /// How many states were seen.
    pub states: usize,
    /// Whether all were seen, and none of them has a fault or is stuck.
    pub is_fine: bool,
    pub kinds: Kinds,
    pub notes: Notes,
}

// Makes the late step of process p from the state at an index, with all private states, and adds the
// state to which it leads. Returns whether no limit was reached.
fn cover_widely(
    alloc: Global,
    program: &Program,
    inputs: &[Vec<u8>],
    space: &mut Space,
    i: usize,
    p: usize,
) -> Result<bool, AllocError>
    requires timeless { is_timeless (view.program program.now) ≡ true }
    requires ready { IsReady (view.program program.now) (input_of inputs.now)
        space.old.store space.old.moves.moves.items }
    requires within { i < state_count space.old.store }
    requires first { 1 ≤ p }
    requires last { p ≤ count (view.program program.now) }
    ensures { IfOk result (λ done. done ≡ true → IsCoveredNow (view.program program.now)
        (input_of inputs.now) i p space.old.store space.new.store space.new.moves.moves.items) }
{
    if !space.store.restore(i, &mut space.state)? {
        space.notes.stop = Some(Stop::Defect);
        return Ok(false);
    }
    if !is_late(space.state.way(program, p)) {
        return Ok(true);
    }
    space.notes.note_transition();
    let step_limit = space.notes.limits.step_limit;
    if !advance(program, inputs, &mut space.state, p, step_limit)? {
        space.notes.note_unsettled(program, &space.state);
        return Ok(false);
    }
    space.add(alloc, program, Origin::of(i, p))
}

// The same, if a worker hasn't found where the step leads.
fn cover_found(
    alloc: Global,
    program: &Program,
    inputs: &[Vec<u8>],
    space: &mut Space,
    found: Option<&Found>,
    i: usize,
    p: usize,
) -> Result<bool, AllocError>
    requires timeless { is_timeless (view.program program.now) ≡ true }
    requires ready { IsReady (view.program program.now) (input_of inputs.now)
        space.old.store space.old.moves.moves.items }
    requires found { IfSome found (λ f. IsNext (view.program program.now) (input_of inputs.now)
        space.old.store i p f.now.next) }
    requires within { i < state_count space.old.store }
    requires first { 1 ≤ p }
    requires last { p ≤ count (view.program program.now) }
    ensures { IfOk result (λ done. done ≡ true → IsCoveredNow (view.program program.now)
        (input_of inputs.now) i p space.old.store space.new.store space.new.moves.moves.items) }
{
    let Some(found) = found else {
        return cover_widely(alloc, program, inputs, space, i, p);
    };
    match &found.next {
        Next::NotLate => Ok(true),
        Next::Leads { kernel, row } => {
            space.notes.note_transition();
            space.add_numbered(alloc, *kernel, row, Origin::of(i, p))
        }
    }
}

// Makes the late step of process p from the state at an index, if its next step is late, and adds
// the state to which it leads. A worker may have found where it leads. Returns whether no limit was
// reached.
fn cover_process(
    alloc: Global,
    program: &Program,
    inputs: &[Vec<u8>],
    space: &mut Space,
    found: Option<&Found>,
    i: usize,
    p: usize,
) -> Result<bool, AllocError>
    requires timeless { is_timeless (view.program program.now) ≡ true }
    requires ready { IsReady (view.program program.now) (input_of inputs.now)
        space.old.store space.old.moves.moves.items }
    requires found { IfSome found (λ f. IsNext (view.program program.now) (input_of inputs.now)
        space.old.store i p f.now.next) }
    requires within { i < state_count space.old.store }
    requires first { 1 ≤ p }
    requires last { p ≤ count (view.program program.now) }
    ensures { IfOk result (λ done. done ≡ true → IsCoveredNow (view.program program.now)
        (input_of inputs.now) i p space.old.store space.new.store space.new.moves.moves.items) }
{
    let Some(key) = space.key(i, p) else {
        space.notes.stop = Some(Stop::Defect);
        return Ok(false);
    };
    let outcome = move_of(alloc, program, inputs, space, key)?;
    match outcome {
        Outcome::NotLate => Ok(true),
        Outcome::Wide => cover_found(alloc, program, inputs, space, found, i, p),
        Outcome::Leads { kernel, part } => {
            space.notes.note_transition();
            space.add_exchanged(alloc, i, p, kernel, part)
        }
    }
}

// Makes the late steps of all processes from the state at an index, by what a batch has found.
fn expand(
    alloc: Global,
    program: &Program,
    inputs: &[Vec<u8>],
    space: &mut Space,
    batch: &mut Batch,
    i: usize,
) -> Result<bool, AllocError>
    requires timeless { is_timeless (view.program program.now) ≡ true }
    requires ready { IsReady (view.program program.now) (input_of inputs.now)
        space.old.store space.old.moves.moves.items }
    requires found { AreFound (view.program program.now) (input_of inputs.now)
        space.old.store batch.old.found.items }
    requires within { i < state_count space.old.store }
    ensures expanded { IfOk result (λ done. done ≡ true → HasExpanded (view.program program.now)
        (input_of inputs.now) i space.old.store space.new.store space.new.moves.moves.items) }
    ensures found { batch.new.found ≡ batch.old.found }
{
    for k in 0..program.processes() {
        if !cover_process(alloc, program, inputs, space, batch.at(i, k + 1), i, k + 1)? {
            return Ok(false);
        }
        batch.pass(i, k + 1);
    }
    Ok(true)
}

// Expands the states that were seen, one after another, with those that are added. Returns whether
// that came to an end.
fn explore<R: Threads + Sync, W: Watch>(
    rt: &R,
    alloc: Global,
    program: &Program,
    inputs: &[Vec<u8>],
    space: &mut Space,
    watch: &W,
) -> Result<bool, AllocError>
    requires timeless { is_timeless (view.program program.now) ≡ true }
    requires ready { IsReady (view.program program.now) (input_of inputs.now)
        space.old.store space.old.moves.moves.items }
    ensures { IfOk result (λ done. done ≡ true → HasExplored (view.program program.now)
        (input_of inputs.now) space.old.store space.new.store) }
{
    let mut batch = Batch::new(alloc);
    for i in 0..u32::MAX as usize {
        if space.store.len() <= i {
            return Ok(true);
        }
        watch.note(i, space.store.len());
        batch.begin_at(rt, alloc, program, inputs, space, i)?;
        if !expand(alloc, program, inputs, space, &mut batch, i)? {
            return Ok(false);
        }
    }
    Ok(false)
}

// Adds the first state and expands all states. Returns whether all were seen, and none has a fault
// or is stuck.
fn search_all<R: Threads + Sync, W: Watch>(
    rt: &R,
    alloc: Global,
    program: &Program,
    inputs: &[Vec<u8>],
    servers: &[u32],
    space: &mut Space,
    watch: &W,
) -> Result<bool, AllocError>
    requires sound { IsSound space.old.store }
    requires none { (inputs : ℕ → List ℕ) → cores_of inputs space.old.store ≡ [] }
    requires moves { space.old.moves.moves.items ≡ [] }
    ensures { IfOk result (λ fine. fine ≡ true
        → NothingIsStuck servers.now (view.program program.now) (input_of inputs.now)) }
{
    law::expanding();
    served::searching();
    if !is_timeless(program) {
        space.notes.stop = Some(Stop::Clock);
        return Ok(false);
    }
    space.state = SearchState::first(alloc, program)?;
    let step_limit = space.notes.limits.step_limit;
    if !settle(program, inputs, &mut space.state, step_limit)? {
        space.notes.note_unsettled(program, &space.state);
        return Ok(false);
    }
    if !space.add(alloc, program, Origin::START)? {
        return Ok(false);
    }
    if !explore(rt, alloc, program, inputs, space, watch)? {
        return Ok(false);
    }
    are_fine(program, servers, &space.store, &mut space.state)
}

/// Searches all schedules, breadth first, by as many threads as the limits say. What it finds doesn't
/// depend on how many there are, nor on whether they can be started. `inputs` has the inputs of the processes by number, from
/// 1. The servers, by their numbers, may wait forever.
///
/// # Errors
///
/// `AllocError` if memory runs out.
pub fn search<R: Threads + Sync, W: Watch>(
    rt: &R,
    alloc: Global,
    program: &Program,
    inputs: &[Vec<u8>],
    servers: &[u32],
    limits: Limits,
    watch: &W,
) -> Result<Explored, AllocError>
    ensures { IfOk result (λ explored. explored.is_fine ≡ true
        → NothingIsStuck servers.now (view.program program.now) (input_of inputs.now)) }
{
    let mut space = Space::new(alloc, program, limits);
    let is_fine = search_all(rt, alloc, program, inputs, servers, &mut space, watch)?;
    Ok(Explored {
        states: space.store.len(),
        is_fine,
        kinds: kinds_of(program, servers, &mut space)?,
        notes: space.notes,
    })
}
