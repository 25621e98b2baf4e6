//! The steps that a search makes of a state.

ghost use Rattle.std.specs.Prelude.{◌≡◌, ◌≤◌, ◌-◌, ℕ, List, IfOk, length, true};
ghost use Rattle.cp_program.specs.View as view;
ghost use Rattle.cp_private.specs.States.{private_of};
ghost use Rattle.cp_model_machine.specs.Steps as plain;
ghost use Rattle.cp_law_cores.specs.Cores.{close, silent};
ghost use Rattle.cp_kernel.specs.KernelOf.{kernel_of};
ghost use Rattle.cp_search_states.specs.SearchStates.{HasRun, HasTurned, StepsInto, core_with, input_at};

use cp_base_config::turn::Turn;
use cp_kernel::closing::end_round;
use cp_kernel::kernel::Kernel;
use cp_kernel::turns::kernel_turn;
use cp_private::private::Private;
use cp_private::private_box::PrivateBox;
use cp_private::turns::private_turn;
use cp_program::program::Program;
use std::alloc::AllocError;

/// Turns of one step.
pub const ONE_STEP: Turn = Turn { steps: 1 };

/// The input of process p, from 1, or nothing if it has none.
pub fn input_for(inputs: &[Vec<u8>], p: usize) -> &[u8]
    ensures { result.now ≡ input_at inputs.now (p - 1) }
{
    match inputs.get(p.saturating_sub(1)) {
        Some(input) => input.as_slice(),
        None => &[],
    }
}

// Makes a private turn, without what it writes.
pub(crate) fn make_turn(
    program: &Program,
    private: &mut Private,
    input: &[u8],
    turn: Turn,
) -> Result<(), AllocError>
    ensures { IfOk result (λ _. private_of private.new input.now ≡ silent (plain.private_steps
        (view.program program.now) 0 turn.steps (private_of private.old input.now))) }
{
    private.reserve(turn)?;
    private_turn(program, private, input, 0, turn);
    private.clear_output();
    Ok(())
}

// Makes a kernel turn of one step. Returns whether there is such a process.
pub(crate) fn make_step(
    program: &Program,
    kernel: &mut Kernel,
    private: &mut Private,
    input: &[u8],
) -> Result<bool, AllocError>
    ensures { IfOk result (λ made. made ≡ true → StepsInto (view.program program.now) kernel.old
        private.old kernel.new private.new input.now) }
{
    let p = private.number();
    if !kernel.has_process(p) {
        return Ok(false);
    }
    private.reserve(ONE_STEP)?;
    kernel.reserve_askers(1)?;
    kernel.reserve_bytes(p, private.output().len() + 11)?;
    kernel_turn(program, kernel, private, input, 0, ONE_STEP);
    Ok(true)
}

/// Makes a private turn of process p.
///
/// # Errors
///
/// `AllocError` if memory runs out.
pub fn run(
    program: &Program,
    inputs: &[Vec<u8>],
    privates: &mut Vec<PrivateBox>,
    p: usize,
    turn: Turn,
) -> Result<(), AllocError>
    requires first { 1 ≤ p }
    requires last { p ≤ length privates.old.items }
    ensures { IfOk result (λ _. HasRun (view.program program.now) turn.steps p inputs.now
        privates.old.items privates.new.items) }
{
    let input = input_for(inputs, p);
    make_turn(program, privates[p - 1].private_mut(), input, turn)
}

/// Makes a kernel turn of one step of process p. Returns whether it could be made.
///
/// # Errors
///
/// `AllocError` if memory runs out.
pub fn step(
    program: &Program,
    inputs: &[Vec<u8>],
    privates: &mut Vec<PrivateBox>,
    kernel: &mut Kernel,
    p: usize,
) -> Result<bool, AllocError>
    requires first { 1 ≤ p }
    requires last { p ≤ length privates.old.items }
    ensures { IfOk result (λ made. made ≡ true → HasTurned (view.program program.now) p inputs.now
        privates.old.items kernel.old privates.new.items kernel.new) }
{
    let input = input_for(inputs, p);
    make_step(program, kernel, privates[p - 1].private_mut(), input)
}

/// Ends the round.
pub fn close_round(program: &Program, privates: &mut Vec<PrivateBox>, kernel: &mut Kernel)
    ensures { (inputs : ℕ → List ℕ) → core_with inputs privates.new.items kernel.new ≡ close
        (view.program program.now) (core_with inputs privates.old.items kernel.old) }
{
    end_round(program, kernel, privates);
}
