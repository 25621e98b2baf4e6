//! Moves of one process, as far as they depend on the kernel and on its private state alone.

ghost use Rattle.std.specs.Prelude.{◌≡◌, ◌<◌, IfOk, false, length, true};
ghost use Rattle.cp_program.specs.View as view;
ghost use Rattle.cp_law_calls.specs.Ways as plain;
ghost use Rattle.cp_law_cores.specs.Clocks.{is_timeless};
ghost use Rattle.cp_search_states.specs.SearchStates.{input_of, way_view};
ghost use Rattle.cp_search.specs.SearchResults.{HasMoved, IsFound, IsReady};

use crate::space::Space;
use cp_program::program::Program;
use cp_search_states::settling::StepLimit;
use cp_search_states::steps::input_for;
use cp_search_states::ways::Way;
use cp_search_store::moves::{Key, Outcome};
use cp_search_store::store::Store;
use std::alloc::{AllocError, Global};

pub(crate) fn is_late(way: Way) -> bool
    ensures yes { result ≡ true → way_view way ≡ plain.Late }
    ensures no { result ≡ false → way_view way ≡ plain.Late → ⊥ }
{
    matches!(way, Way::Late)
}

// Where the move with a key leads. It is made, and the parts that it leads to are added.
fn make_move(
    alloc: Global,
    program: &Program,
    inputs: &[Vec<u8>],
    store: &mut Store,
    key: Key,
    step_limit: StepLimit,
) -> Result<Outcome, AllocError>
    requires { is_timeless (view.program program.now) ≡ true }
    ensures { IfOk result (λ outcome. HasMoved (view.program program.now) (input_of inputs.now)
        store.old key outcome store.new) }
{
    let known = store.lone(alloc, key.kernel, key.part)?;
    let Some(mut lone) = known else {
        return Ok(Outcome::Wide);
    };
    if !is_late(lone.way(program)) {
        return Ok(Outcome::NotLate);
    }
    let input = input_for(inputs, key.process as usize);
    if !lone.advance(alloc, program, input, step_limit)? {
        return Ok(Outcome::Wide);
    }
    let kernel = store.number_kernel(alloc, &lone.kernel)?;
    let part = store.number_part(alloc, &lone.private)?;
    Ok(Outcome::Leads { kernel, part })
}

/// Where the move with a key leads. It is made and remembered, unless it was made before, or if
/// moves are rarely found again.
pub(crate) fn move_of(
    alloc: Global,
    program: &Program,
    inputs: &[Vec<u8>],
    space: &mut Space,
    key: Key,
) -> Result<Outcome, AllocError>
    requires timeless { is_timeless (view.program program.now) ≡ true }
    requires ready { IsReady (view.program program.now) (input_of inputs.now)
        space.old.store space.old.moves.moves.items }
    requires kernel { key.kernel < length space.old.store.kernels.kernels.items }
    requires part { key.part < length space.old.store.parts.privates.items }
    ensures { IfOk result (λ outcome. IsFound (view.program program.now) (input_of inputs.now)
        space.old.store key outcome space.new.store space.new.moves.moves.items) }
{
    if let Some(outcome) = space.moves.find(key) {
        space.tally.note_found();
        return Ok(outcome);
    }
    if !space.tally.pays() {
        return Ok(Outcome::Wide);
    }
    space.tally.note_made();
    let step_limit = space.notes.limits.step_limit;
    let outcome = make_move(alloc, program, inputs, &mut space.store, key, step_limit)?;
    space.moves.remember(alloc, key, outcome)?;
    Ok(outcome)
}
