//! The steps of `init`.

ghost use Rattle.std.specs.Prelude.{◌≡◌, ◌<◌, ◌^◌, ℕ, List, map};
ghost use Rattle.cp_private.specs.Keeping.{ChangesOnlyWords, IsAddressable, KeepsRest};
ghost use Rattle.cp_private.specs.States.{IsStep, join};
ghost use Rattle.cp_model_machine.specs.Calling as plain;
ghost use Rattle.cp_model_machine.specs.Passing.{component_called};
ghost use Rattle.cp_program.specs.View as view;

use crate::called::{Back, Called};
use crate::effect::Effect;
use crate::outside::StepContext;
use crate::passing::Destination;
use crate::private::Private;
use cp_model::state::Fault;
use cp_program::operation::{Argument, Call};
use cp_program::program::Program;

// Where the parameters of the process wait among the shared words.
fn parameters_start(program: &Program, process: u32) -> u32
    ensures { result ≡ plain.parameters_start (view.program program.now) process }
{
    match program.process(process as usize) {
        Some(process) => process.parameters,
        None => 0,
    }
}

impl Private {
    // Copies the arguments to where they belong, after the mark of the component.
    fn settle(&mut self, shared: &mut [i32], from: usize, to: usize, count: usize)
        requires shared { IsAddressable shared.old }
        requires from { from < 2 ^ 35 }
        requires to { to < 2 ^ 35 }
        ensures step { (input : List ℕ) → join self.new input shared.new ≡ plain.settle
            (join self.old input shared.old) from to count }
        ensures kept { ChangesOnlyWords self.old shared.old self.new shared.new }
    {
        self.move_words(shared, to + 1, from + 1, count);
    }

    /// Initialises a class, whose body runs next.
    pub(crate) fn init_class(
        &mut self,
        program: &Program,
        shared: &mut [i32],
        outside: &StepContext,
        call: &Call,
        next: u32,
    ) -> Result<Effect, Fault>
        requires { IsAddressable shared.old }
        ensures step { IsStep self.old shared.old outside.now self.new shared.new result
            (λ w o. let program = view.program program.now in
            plain.init_class program w o (view.call call.now) (component_called program
            w o (view.target call.now.target)).component next) }
        ensures kept { KeepsRest self.old shared.old self.new shared.new }
    {
        let at = self.callee(program, shared, outside, call.target).component;
        let Some(unit) = self.unit_with_room(program, shared, call, at) else {
            return Ok(Effect::None);
        };
        if self.word(shared, at) != 0 {
            return Err(Fault::InitialisedTwice);
        }
        let from = self.memory.base + call.words as usize;
        let destination = Destination { to: from, home: at };
        self.pass_all(shared, outside, destination, &call.arguments)?;
        self.settle(shared, from, at, call.arguments.len());
        self.set_word(shared, at, 1);
        let class = Called {
            component: at,
            is_set: true,
            gate: 0,
        };
        let link = Back {
            counter: next,
            into: 0,
        };
        self.enter(class, unit, call, link);
        Ok(Effect::None)
    }

    /// Initialises a monitor, whose body runs next.
    pub(crate) fn init_monitor(
        &mut self,
        program: &Program,
        shared: &mut [i32],
        outside: &StepContext,
        call: &Call,
        next: u32,
    ) -> Result<Effect, Fault>
        requires { IsAddressable shared.old }
        ensures step { IsStep self.old shared.old outside.now self.new shared.new result
            (λ w o. let program = view.program program.now in
            plain.init_monitor program w o (view.call call.now) (component_called
            program w o (view.target call.now.target)).gate next) }
        ensures kept { KeepsRest self.old shared.old self.new shared.new }
    {
        let number = self.callee(program, shared, outside, call.target).gate;
        let monitor = self.monitor_callee(program, outside, number);
        let at = monitor.component;
        let Some(unit) = self.unit_with_room(program, shared, call, at) else {
            return Ok(Effect::None);
        };
        if monitor.is_set {
            return Err(Fault::InitialisedTwice);
        }
        let from = self.memory.base + call.words as usize;
        let destination = Destination { to: from, home: at };
        self.pass_all(shared, outside, destination, &call.arguments)?;
        self.settle(shared, from, at, call.arguments.len());
        let link = Back {
            counter: next,
            into: 0,
        };
        self.enter(monitor, unit, call, link);
        Ok(Effect::Opens(number))
    }

    /// Initialises a process, which begins with the next round.
    pub(crate) fn init_process(
        &mut self,
        program: &Program,
        shared: &mut [i32],
        outside: &StepContext,
        process: u32,
        arguments: &[Argument],
        words: u32,
        next: u32,
    ) -> Result<Effect, Fault>
        requires { IsAddressable shared.old }
        ensures step { IsStep self.old shared.old outside.now self.new shared.new result
            (λ w o. plain.init_process (view.program program.now) w o process (map view.argument
            arguments.now) words next) }
        ensures kept { KeepsRest self.old shared.old self.new shared.new }
    {
        if outside.is_started(process) {
            return Err(Fault::InitialisedTwice);
        }
        let from = self.memory.base + words as usize;
        let to = self.memory.words.len() + parameters_start(program, process) as usize;
        let destination = Destination { to: from, home: to };
        self.pass_all(shared, outside, destination, arguments)?;
        self.settle(shared, from, to, arguments.len());
        self.counter = next;
        Ok(Effect::Starts(process))
    }
}
