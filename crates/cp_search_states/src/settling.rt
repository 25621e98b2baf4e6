//! Settling: eager steps until no process has one.

ghost use Rattle.std.specs.Prelude.{◌≡◌, ◌≤◌, ℕ, List, IfOk, true};
ghost use Rattle.cp_program.specs.View as view;
ghost use Rattle.cp_law_calls.specs.Ways as plain;
ghost use Rattle.cp_law_cores.specs.Clocks.{is_timeless};
ghost use Rattle.cp_law_cores.specs.Cores.{close};
ghost use Rattle.cp_law_cores.specs.Turns.{AreSilent};
ghost use Rattle.cp_law_search.specs.Calls.{move_at, way_at};
ghost use Rattle.cp_law_exploring.specs.Exploring.{IsQuiescent, SettlesQuietly, count};
ghost use Rattle.cp_search_states.specs.SearchStates.{IsNearer, core_of, input_of};

use crate::state::SearchState;
use crate::steps::{close_round, run, step};
use cp_base_config::turn::Turn;
use cp_law_exploring::law;
use cp_private::kind::{Kind, next_kind};
use cp_program::program::Program;
use std::alloc::AllocError;

/// How far a state is followed: the steps of a private turn, and how many turns there are at most.
#[derive(Clone, Copy)]
pub struct StepLimit {
    pub turn: Turn,
    pub turns: u32,
}

// Makes an eager step of process p: a private turn, or one step of the kernel and the end of a
// round. Returns whether it could be made.
fn make_eager_step(
    program: &Program,
    inputs: &[Vec<u8>],
    state: &mut SearchState,
    p: usize,
    turn: Turn,
) -> Result<bool, AllocError>
    requires timeless { is_timeless (view.program program.now) ≡ true }
    requires rest { IsQuiescent (core_of (input_of inputs.now) state.old) }
    requires first { 1 ≤ p }
    requires last { p ≤ count (view.program program.now) }
    requires eager { way_at (view.program program.now) (core_of (input_of inputs.now) state.old) p
        ≡ plain.Eager }
    ensures { IfOk result (λ made. made ≡ true → IsNearer (view.program program.now)
        (core_of (input_of inputs.now) state.old) (core_of (input_of inputs.now) state.new)) }
{
    law::settling();
    if state.privates.len() < p {
        return Ok(false);
    }
    match next_kind(program, state.privates[p - 1].private()) {
        Kind::Private => {
            run(program, inputs, &mut state.privates, p, turn)?;
            Ok(true)
        }
        Kind::Kernel => {
            if !step(program, inputs, &mut state.privates, &mut state.kernel, p)? {
                return Ok(false);
            }
            close_round(program, &mut state.privates, &mut state.kernel);
            Ok(true)
        }
        Kind::None => Ok(false),
    }
}

/// Ends the round, and makes eager steps until no process has one. Returns whether it came so far.
///
/// # Errors
///
/// `AllocError` if memory runs out.
pub fn settle(
    program: &Program,
    inputs: &[Vec<u8>],
    state: &mut SearchState,
    step_limit: StepLimit,
) -> Result<bool, AllocError>
    requires timeless { is_timeless (view.program program.now) ≡ true }
    requires silent { AreSilent (core_of (input_of inputs.now) state.old) }
    ensures { IfOk result (λ done. done ≡ true → SettlesQuietly (view.program program.now)
        (close (view.program program.now) (core_of (input_of inputs.now) state.old))
        (core_of (input_of inputs.now) state.new)) }
{
    law::settling();
    close_round(program, &mut state.privates, &mut state.kernel);
    for _turn in 0..step_limit.turns {
        let Some(p) = state.first_eager(program) else {
            return Ok(true);
        };
        if !make_eager_step(program, inputs, state, p, step_limit.turn)? {
            return Ok(false);
        }
    }
    Ok(false)
}

/// Makes the late step of process p, and settles. Returns whether it came so far.
///
/// # Errors
///
/// `AllocError` if memory runs out.
pub fn advance(
    program: &Program,
    inputs: &[Vec<u8>],
    state: &mut SearchState,
    p: usize,
    step_limit: StepLimit,
) -> Result<bool, AllocError>
    requires timeless { is_timeless (view.program program.now) ≡ true }
    requires rest { IsQuiescent (core_of (input_of inputs.now) state.old) }
    requires first { 1 ≤ p }
    requires late { way_at (view.program program.now) (core_of (input_of inputs.now) state.old) p
        ≡ plain.Late }
    ensures { IfOk result (λ done. done ≡ true → SettlesQuietly (view.program program.now)
        (move_at (view.program program.now) (core_of (input_of inputs.now) state.old) p)
        (core_of (input_of inputs.now) state.new)) }
{
    law::settling();
    if state.privates.len() < p {
        return Ok(false);
    }
    if !step(program, inputs, &mut state.privates, &mut state.kernel, p)? {
        return Ok(false);
    }
    settle(program, inputs, state, step_limit)
}
