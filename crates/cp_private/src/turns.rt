//! Private turns, and the steps that the kernel asks for.

ghost use Rattle.std.specs.Prelude.{◌≡◌, ◌≢◌, ◌≤◌, ◌+◌, ◌*◌, None, IfSome, length, vec_capacity, vec_len};
ghost use Rattle.cp_private.specs.Keeping.{IsAddressable, KeepsRest, KeepsRestButOutput};
ghost use Rattle.cp_private.specs.Promises.{MakesJoinedStep, MakesStep, MakesTurn};
ghost use Rattle.cp_private.specs.FastStep.{Makes, Stays, left_by};
ghost use Rattle.cp_private.specs.declared.turns.FastKernelPath.TheVariants as fast_kernel_path_case;
ghost use Rattle.cp_private.specs.Rooms.{HasRoomFor, KeepsRoom};
ghost use Rattle.cp_private.specs.States.{IsAlone, effect, join, outside_of, private_of};
ghost use Rattle.cp_model_machine.specs.Steps as plain;
ghost use Rattle.cp_program.specs.View as view;

use crate::effect::Effect;
use crate::fast_step::FastPath;
use crate::outside::StepContext;
use crate::private::Private;
use cp_base_config::turn::Turn;
use cp_model::law::invariant;
use cp_model_machine::law;
use cp_program::operation::Operation;
use cp_program::program::Program;
use cp_program::reach::AllWords;

// Makes `count` steps, as long as the next one is private. It isn't inlined: in a function with
// more than this loop LLVM leaves tests of the steps' own results.
#[inline(never)]
fn take_steps(program: &Program, private: &mut Private, outside: &StepContext, count: u32)
    requires alone { IsAlone outside.now }
    requires room { HasRoomFor private.old count }
    ensures steps { private_of private.new outside.now.input.now ≡ plain.private_steps
        (view.program program.now) outside.now.clock count
        (private_of private.old outside.now.input.now) }
    ensures number { private.new.number ≡ private.old.number }
    ensures length { vec_len private.new.output ≤ vec_len private.old.output + 11 * count }
    ensures capacity { vec_capacity private.old.output ≤ vec_capacity private.new.output }
{
    if !private.is_ready() {
        return;
    }
    let mut left = count;
    while left > 0 && private.take_step(program, outside) {
        left -= 1;
    }
}

/// Makes one step if the next one is private, and otherwise does nothing. It takes no memory.
pub fn private_step(program: &Program, private: &mut Private, input: &[u8], clock: u64)
    requires room { HasRoomFor private.old 1 }
    ensures step { private_of private.new input.now ≡ plain.private_step (view.program program.now)
        clock (private_of private.old input.now) }
    ensures meaning { MakesStep program.now private.old private.new input.now clock }
    ensures number { private.new.number ≡ private.old.number }
    ensures room { KeepsRoom private.old private.new }
{
    take_steps(program, private, &StepContext::alone(input, clock), 1);
    law::private_steps();
    invariant();
}

/// Makes as many steps as the turn has, as long as the next one is private. It takes no memory:
/// `Private::reserve` reserves the room. A step writes at most 11 bytes.
pub fn private_turn(program: &Program, private: &mut Private, input: &[u8], clock: u64, turn: Turn)
    requires room { HasRoomFor private.old turn.steps }
    ensures steps { private_of private.new input.now ≡ plain.private_steps
        (view.program program.now) clock turn.steps (private_of private.old input.now) }
    ensures meaning { MakesTurn program.now turn.steps private.old private.new input.now clock }
    ensures number { private.new.number ≡ private.old.number }
    ensures length { vec_len private.new.output ≤ vec_len private.old.output + 11 * turn.steps }
    ensures capacity { vec_capacity private.old.output ≤ vec_capacity private.new.output }
{
    take_steps(
        program,
        private,
        &StepContext::alone(input, clock),
        turn.steps(),
    );
    law::private_steps();
    invariant();
}

// Makes the step of the next operation, if there is one.
fn act(
    program: &Program,
    private: &mut Private,
    shared: &mut [i32],
    outside: &StepContext,
) -> Effect
    requires shared { IsAddressable shared.old }
    requires room { HasRoomFor private.old 1 }
    ensures step { let w = outside_of outside.now (length private.old.memory.words.items) in
        (join private.new outside.now.input.now shared.new, effect result) ≡ plain.step_with
        (view.program program.now) w (join private.old outside.now.input.now shared.old) }
    ensures kept { KeepsRestButOutput private.old shared.old private.new shared.new }
{
    match program.operation(private.counter) {
        Some(operation) => private.make(operation, program, shared, outside),
        None => Effect::None,
    }
}

/// Makes one step of a running process, of any kind, and returns what it leaves to the kernel. It
/// takes no memory.
pub fn step(
    program: &Program,
    private: &mut Private,
    shared: &mut [i32],
    outside: &StepContext,
) -> Effect
    requires shared { IsAddressable shared.old }
    requires room { HasRoomFor private.old 1 }
    ensures step { let w = outside_of outside.now (length private.old.memory.words.items) in
        (join private.new outside.now.input.now shared.new, effect result) ≡ plain.step_with
        (view.program program.now) w (join private.old outside.now.input.now shared.old) }
    ensures meaning { MakesJoinedStep program.now outside.now private.old shared.old private.new
        shared.new result }
    ensures kept { KeepsRestButOutput private.old shared.old private.new shared.new }
{
    law::kernel_steps();
    act(program, private, shared, outside)
}

/// What became of a step that was tried in registers, of a process that holds a gate.
#[derive(Clone, Copy)]
pub enum FastKernelPath {
    /// The step was made, and the process holds the same gate.
    Made,
    /// The step was made: the routine returned, and left this gate, or none if the number is 0.
    Returned(u32),
    /// Nothing has changed.
    NotMade,
}

/// Makes the next step of a process that holds a gate, if the step takes no more than registers.
#[inline(always)]
pub fn step_in_registers(
    program: &Program,
    private: &mut Private,
    shared: &mut [i32],
) -> FastKernelPath
    requires shared { IsAddressable shared.old }
    requires held { private.old.gate ≢ 0 }
    ensures step { IfSome (left_by result)
        (Makes (plain.step_with (view.program program.now)) private.old shared.old private.new
        shared.new) }
    ensures same { left_by result ≡ None → Stays private.old shared.old private.new shared.new }
    ensures held { result ≡ fast_kernel_path_case.Made → private.new.gate ≡ private.old.gate }
    ensures activity { private.new.activity ≡ private.old.activity }
    ensures kept { KeepsRest private.old shared.old private.new shared.new }
{
    if !program.has_operation(private.counter) {
        return FastKernelPath::NotMade;
    }
    let operation = program.operation_at(private.counter);
    if let Operation::Return { function } = operation {
        return match private.return_fast(shared, *function) {
            Some(gate) => FastKernelPath::Returned(gate),
            None => FastKernelPath::NotMade,
        };
    }
    match private.take_fast_step::<AllWords>(shared, operation) {
        FastPath::Made => FastKernelPath::Made,
        FastPath::Calls | FastPath::Rare => FastKernelPath::NotMade,
    }
}
