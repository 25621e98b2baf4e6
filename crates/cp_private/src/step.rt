//! One step of a process.

ghost use Rattle.std.specs.Prelude.{◌≡◌, false, true, ℕ, List, [], Some, length};
ghost use Rattle.cp_private.specs.Keeping.{IsAddressable, KeepsOwn, KeepsOwnButOutput, KeepsRestButOutput};
ghost use Rattle.cp_private.specs.Calls.{back};
ghost use Rattle.cp_model_machine.specs.Calling.{call_step};
ghost use Rattle.cp_private.specs.Rooms.{HasRoomFor};
ghost use Rattle.cp_private.specs.States.{IsAlone, IsReady, IsStep, activity, effect, join, outside_of, private_of};
ghost use Rattle.cp_model_machine.specs.PrivateStates.{is_running};
ghost use Rattle.cp_model_program.specs.Programs as code;
ghost use Rattle.cp_model_machine.specs.Steps as plain;
ghost use Rattle.cp_program.specs.View as view;

use crate::called::Back;
use crate::effect::Effect;
use crate::fast_step::FastPath;
use crate::outside::StepContext;
use crate::private::{Activity, Private};
use cp_model::state::Fault;
use cp_program::operation::{Call, Operation, Target};
use cp_program::program::Program;
use cp_program::reach::OwnWords;

impl Private {
    // Makes the step of an operation. If it faults, nothing has changed except what was passed to a
    // call.
    #[inline(always)]
    fn act(
        &mut self,
        operation: &Operation,
        program: &Program,
        shared: &mut [i32],
        outside: &StepContext,
    ) -> Result<Effect, Fault>
        requires shared { IsAddressable shared.old }
        requires room { HasRoomFor self.old 1 }
        ensures step { IsStep self.old shared.old outside.now self.new shared.new result
            (λ w o. plain.act (view.program program.now) w o (view.operation operation.now)) }
        ensures kept { KeepsRestButOutput self.old shared.old self.new shared.new }
    {
        match operation {
            Operation::Evaluate { value, then } => {
                self.evaluate_then(shared, outside, value, then)
            }
            Operation::CopyWords {
                to,
                from,
                size,
                next,
            } => self.copy_words(shared, outside, to, from, *size, *next),
            Operation::Case { value, table } => self.choose(shared, outside, value, table),
            Operation::For {
                counting,
                first,
                last,
            } => self.count_from(shared, outside, counting, first, last),
            Operation::ForNext(counting) => self.count_on(shared, outside, counting),
            Operation::Cycle { body } => self.go_to(shared, outside, *body),
            Operation::Procedure { call, next } => {
                self.call(program, shared, outside, call, Back::new(*next, 0))
            }
            Operation::Function { call, into, next } => {
                self.call(program, shared, outside, call, Back::new(*next, *into))
            }
            Operation::Return { function } => self.leave_routine(shared, outside, *function),
            Operation::InitClass { call, next } => {
                self.init_class(program, shared, outside, call, *next)
            }
            Operation::InitMonitor { call, next } => {
                self.init_monitor(program, shared, outside, call, *next)
            }
            Operation::InitProcess {
                process,
                arguments,
                words,
                next,
            } => self.init_process(program, shared, outside, *process, arguments, *words, *next),
            Operation::EndBody => self.end_body(shared, outside),
            Operation::End => self.end(shared, outside),
            Operation::Display {
                value,
                as_byte,
                next,
            } => self.display(shared, outside, value, *as_byte, *next),
            Operation::Accept { to, bounds, next } => {
                self.accept(shared, outside, to, *bounds, *next)
            }
            Operation::Delay { queue, next } => self.delay(shared, outside, queue, *next),
            Operation::Continue { queue, function } => {
                self.leave_by_continue(shared, outside, queue, *function)
            }
            Operation::Wait { next } => self.wait(shared, outside, *next),
        }
    }

    /// Makes the step of an operation. A fault ends the process.
    #[inline(always)]
    pub(crate) fn make(
        &mut self,
        operation: &Operation,
        program: &Program,
        shared: &mut [i32],
        outside: &StepContext,
    ) -> Effect
        requires shared { IsAddressable shared.old }
        requires room { HasRoomFor self.old 1 }
        ensures step { let w = outside_of outside.now (length self.old.memory.words.items) in
            (join self.new outside.now.input.now shared.new, effect result) ≡ plain.act
            (view.program program.now) w (join self.old outside.now.input.now shared.old)
            (view.operation operation.now) }
        ensures kept { KeepsRestButOutput self.old shared.old self.new shared.new }
    {
        match self.act(operation, program, shared, outside) {
            Ok(effect) => effect,
            Err(fault) => {
                self.activity = Activity::Faulted(fault);
                Effect::None
            }
        }
    }

    /// Whether the process runs and holds no gate, so that its next step may be private.
    #[inline(always)]
    pub(crate) fn is_ready(&self) -> bool
        ensures ready { result ≡ true → IsReady self.now }
        ensures rest { result ≡ false → (program : code.Program) (clock : ℕ) (input : List ℕ)
            → plain.private_step program clock (private_of self.now input)
            ≡ private_of self.now input }
    {
        matches!(self.activity, Activity::Running) && self.gate == 0
    }

    // Whether a process that runs holds no gate, so that its next step may be private.
    #[inline(always)]
    fn is_free(&self) -> bool
        requires { is_running (activity self.now.activity) ≡ true }
        ensures ready { result ≡ true → IsReady self.now }
        ensures rest { result ≡ false → (program : code.Program) (clock : ℕ) (input : List ℕ)
            → plain.private_step program clock (private_of self.now input)
            ≡ private_of self.now input }
    {
        self.gate == 0
    }

    // Makes a private call. Returns whether one more step may be private. Within the loop over
    // steps it would take registers from all other steps.
    #[inline(never)]
    fn take_call(
        &mut self,
        program: &Program,
        outside: &StepContext,
        call: &Call,
        link: Back,
    ) -> bool
        requires { IsReady self.old }
        ensures step { let w = outside_of outside.now (length self.old.memory.words.items) in
            let input = outside.now.input.now in join self.new input []
            ≡ (call_step (view.program program.now) w (join self.old input []) (view.call call.now)
            (back link)).0 }
        ensures ready { result ≡ true → IsReady self.new }
        ensures rest { result ≡ false → (program : code.Program) (clock : ℕ) (input : List ℕ)
            → plain.private_step program clock (private_of self.new input)
            ≡ private_of self.new input }
        ensures kept { KeepsOwn self.old self.new }
    {
        let Err(fault) = self.call_here(program, &mut [], outside, call, link) else {
            return self.is_free();
        };
        self.activity = Activity::Faulted(fault);
        false
    }

    // Makes the next step of a process that is ready, which is that of the operation, if the step
    // is private. Returns whether one more step may be private.
    #[inline(always)]
    fn take_step_of(
        &mut self,
        operation: &Operation,
        program: &Program,
        outside: &StepContext,
    ) -> bool
        requires alone { IsAlone outside.now }
        requires ready { IsReady self.old }
        requires room { HasRoomFor self.old 1 }
        requires next { plain.operation_of (view.program program.now)
            (private_of self.old outside.now.input.now) ≡ Some (view.operation operation.now) }
        ensures step { private_of self.new outside.now.input.now ≡ plain.private_step
            (view.program program.now) outside.now.clock
            (private_of self.old outside.now.input.now) }
        ensures ready { result ≡ true → IsReady self.new }
        ensures rest { result ≡ false → plain.private_step (view.program program.now)
            outside.now.clock (private_of self.new outside.now.input.now)
            ≡ private_of self.new outside.now.input.now }
        ensures kept { KeepsOwnButOutput self.old self.new }
    {
        if needs_kernel(operation) {
            return false;
        }
        self.make(operation, program, &mut [], outside);
        self.is_ready()
    }

    // Makes such a step out of line, so that the loop over steps holds no registers for rare
    // operations.
    #[inline(never)]
    fn take_rare_step(
        &mut self,
        operation: &Operation,
        program: &Program,
        outside: &StepContext,
    ) -> bool
        requires alone { IsAlone outside.now }
        requires ready { IsReady self.old }
        requires room { HasRoomFor self.old 1 }
        requires next { plain.operation_of (view.program program.now)
            (private_of self.old outside.now.input.now) ≡ Some (view.operation operation.now) }
        ensures step { private_of self.new outside.now.input.now ≡ plain.private_step
            (view.program program.now) outside.now.clock
            (private_of self.old outside.now.input.now) }
        ensures ready { result ≡ true → IsReady self.new }
        ensures rest { result ≡ false → plain.private_step (view.program program.now)
            outside.now.clock (private_of self.new outside.now.input.now)
            ≡ private_of self.new outside.now.input.now }
        ensures kept { KeepsOwnButOutput self.old self.new }
    {
        self.take_step_of(operation, program, outside)
    }

    // Makes such a step of an operation that calls a routine.
    #[inline(always)]
    fn take_call_of(
        &mut self,
        operation: &Operation,
        program: &Program,
        outside: &StepContext,
    ) -> bool
        requires alone { IsAlone outside.now }
        requires ready { IsReady self.old }
        requires room { HasRoomFor self.old 1 }
        requires next { plain.operation_of (view.program program.now)
            (private_of self.old outside.now.input.now) ≡ Some (view.operation operation.now) }
        ensures step { private_of self.new outside.now.input.now ≡ plain.private_step
            (view.program program.now) outside.now.clock
            (private_of self.old outside.now.input.now) }
        ensures ready { result ≡ true → IsReady self.new }
        ensures rest { result ≡ false → plain.private_step (view.program program.now)
            outside.now.clock (private_of self.new outside.now.input.now)
            ≡ private_of self.new outside.now.input.now }
        ensures kept { KeepsOwnButOutput self.old self.new }
    {
        if needs_kernel(operation) {
            return false;
        }
        match operation {
            Operation::Procedure { call, next } => {
                self.take_call(program, outside, call, Back::new(*next, 0))
            }
            Operation::Function { call, into, next } => {
                self.take_call(program, outside, call, Back::new(*next, *into))
            }
            _ => self.take_rare_step(operation, program, outside),
        }
    }

    /// Makes the next step of a process that is ready, if the step is private. Returns whether one
    /// more step may be private.
    #[inline(always)]
    pub(crate) fn take_step(&mut self, program: &Program, outside: &StepContext) -> bool
        requires alone { IsAlone outside.now }
        requires ready { IsReady self.old }
        requires room { HasRoomFor self.old 1 }
        ensures step { private_of self.new outside.now.input.now ≡ plain.private_step
            (view.program program.now) outside.now.clock
            (private_of self.old outside.now.input.now) }
        ensures ready { result ≡ true → IsReady self.new }
        ensures rest { result ≡ false → plain.private_step (view.program program.now)
            outside.now.clock (private_of self.new outside.now.input.now)
            ≡ private_of self.new outside.now.input.now }
        ensures kept { KeepsOwnButOutput self.old self.new }
    {
        if !program.has_operation(self.counter) {
            return false;
        }
        let operation = program.operation_at(self.counter);
        if let Operation::Return { function } = operation {
            return match self.return_fast(&[], *function) {
                Some(_) => true,
                None => self.take_rare_step(operation, program, outside),
            };
        }
        match self.take_fast_step::<OwnWords>(&mut [], operation) {
            FastPath::Made => true,
            FastPath::Calls => self.take_call_of(operation, program, outside),
            FastPath::Rare => self.take_rare_step(operation, program, outside),
        }
    }
}

fn is_monitor(target: Target) -> bool
    ensures { result ≡ plain.is_monitor (view.target target) }
{
    matches!(target, Target::Monitor(_) | Target::MonitorRight(_))
}

/// Whether the step of an operation is always the kernel's.
#[inline(always)]
pub(crate) fn needs_kernel(operation: &Operation) -> bool
    ensures { result ≡ plain.is_kernel_operation (view.operation operation.now) }
{
    // One test singles out most operations.
    if !matches!(
        operation,
        Operation::Procedure { .. }
            | Operation::Function { .. }
            | Operation::InitMonitor { .. }
            | Operation::InitProcess { .. }
    ) {
        return false;
    }
    match operation {
        Operation::Procedure { call, .. } | Operation::Function { call, .. } => {
            is_monitor(call.target)
        }
        _ => true,
    }
}
