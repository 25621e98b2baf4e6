//! The steps of standard procedures.

ghost use Rattle.std.specs.Prelude.{◌≡◌, ◌≤◌, ◌++◌, ℕ, ℤ, List, length};
ghost use Rattle.cp_private.specs.Keeping.{IsAddressable, KeepsOwn, KeepsOwnButOutput, KeepsRest};
ghost use Rattle.cp_private.specs.Rooms.{HasRoomFor};
ghost use Rattle.cp_private.specs.States.{IsStep, join};
ghost use Rattle.cp_model.specs.StandardCalls as standard;
ghost use Rattle.cp_model_machine.specs.PrivateStates as states;
ghost use Rattle.cp_model_machine.specs.PrivateStates.{go_to, private_outcome};
ghost use Rattle.cp_model_machine.specs.Steps as plain;
ghost use Rattle.cp_program.specs.View as view;

use crate::effect::Effect;
use crate::outside::StepContext;
use crate::private::{Activity, Private};
use cp_model::state::Fault;
use cp_program::bounds::Bounds;
use cp_program::term::{PlaceExpression, Term};
use itoa::Buffer;

// A character as its byte.
fn byte(n: i32) -> u8
    ensures { result ≡ standard.byte n }
{
    if n < 0 { 0 } else { (n % 256) as u8 }
}

// The number of the next character of the input, or 25 at its end.
fn next_input(input: &[u8], consumed: usize) -> i32
    ensures { result ≡ standard.next_input input.now consumed }
{
    match input.get(consumed) {
        Some(byte) => i32::from(*byte),
        None => 25,
    }
}

// The position after that character. At the end of the input it stays the same.
fn next_place(input: &[u8], consumed: usize) -> usize
    ensures { result ≡ standard.next_place input.now consumed }
{
    match input.get(consumed) {
        Some(_) => consumed + 1,
        None => consumed,
    }
}

impl Private {
    fn write_out(&mut self, bytes: &[u8], next: u32)
        requires few { length bytes.now ≤ 11 }
        requires room { HasRoomFor self.old 1 }
        ensures step { (input : List ℕ) (shared : List ℤ)
            → let o = join self.old input shared in
            join self.new input shared
            ≡ go_to next (record o { output = o.output ++ bytes.now }) }
        ensures kept { KeepsOwnButOutput self.old self.new }
    {
        let appended = self.output.extend_from_slice(bytes);
        prove!(appended.is_ok());
        self.counter = next;
    }

    pub(crate) fn display(
        &mut self,
        shared: &[i32],
        outside: &StepContext,
        value: &Term,
        as_byte: bool,
        next: u32,
    ) -> Result<Effect, Fault>
        requires shared { IsAddressable shared.now }
        requires room { HasRoomFor self.old 1 }
        ensures step { IsStep self.old shared.now outside.now self.new shared.now result
            (λ w o. plain.with_value w o (view.term value.now) (λ n. plain.display o n as_byte
            next)) }
        ensures kept { KeepsOwnButOutput self.old self.new }
    {
        let n = self.evaluate(shared, outside, value)?;
        if as_byte {
            self.write_out(&[byte(n)], next);
        } else {
            let mut buffer = Buffer::new();
            self.write_out(buffer.format(n).as_bytes(), next);
        }
        Ok(Effect::None)
    }

    pub(crate) fn accept(
        &mut self,
        shared: &mut [i32],
        outside: &StepContext,
        to: &PlaceExpression,
        bounds: Bounds,
        next: u32,
    ) -> Result<Effect, Fault>
        requires { IsAddressable shared.old }
        ensures step { IsStep self.old shared.old outside.now self.new shared.new result
            (λ w o. plain.with_place w o (view.place_expression to.now) (λ at. plain.accept o at bounds.low
            bounds.high next)) }
        ensures kept { KeepsRest self.old shared.old self.new shared.new }
    {
        let at = self.place(shared, outside, to)?;
        let n = next_input(outside.input, self.consumed);
        if !bounds.contain(n) {
            return Err(Fault::Range);
        }
        let consumed = next_place(outside.input, self.consumed);
        self.set_word(shared, at, n);
        self.consumed = consumed;
        self.counter = next;
        Ok(Effect::None)
    }

    pub(crate) fn delay(
        &mut self,
        shared: &mut [i32],
        outside: &StepContext,
        queue: &PlaceExpression,
        next: u32,
    ) -> Result<Effect, Fault>
        requires { IsAddressable shared.old }
        ensures step { IsStep self.old shared.old outside.now self.new shared.new result
            (λ w o. plain.with_place w o (view.place_expression queue.now) (λ at. plain.delay o at next)) }
        ensures kept { KeepsRest self.old shared.old self.new shared.new }
    {
        let at = self.place(shared, outside, queue)?;
        let monitor = self.gate;
        if monitor == 0 {
            return Ok(Effect::None);
        }
        if self.memory.words.len() + shared.len() <= at {
            return Ok(Effect::None);
        }
        if self.word(shared, at) > 0 {
            return Err(Fault::QueueTaken);
        }
        let number = self.number as i32;
        self.set_word(shared, at, number);
        self.pause = self.counter;
        self.counter = next;
        Ok(Effect::Delays {
            monitor,
            queue: at as u32,
        })
    }

    /// Makes the process wait for the clock.
    pub(crate) fn wait(
        &mut self,
        shared: &[i32],
        outside: &StepContext,
        next: u32,
    ) -> Result<Effect, Fault>
        ensures step { IsStep self.old shared.now outside.now self.new shared.now result
            (λ w o. private_outcome (go_to next (record o { activity = states.Waiting }))) }
        ensures kept { KeepsOwn self.old self.new }
    {
        self.activity = Activity::Waiting;
        self.pause = self.counter;
        self.counter = next;
        Ok(Effect::None)
    }

    /// Ends the process.
    pub(crate) fn end(&mut self, shared: &[i32], outside: &StepContext) -> Result<Effect, Fault>
        ensures step { IsStep self.old shared.now outside.now self.new shared.now result
            (λ w o. private_outcome (record o { activity = states.Ended })) }
        ensures kept { KeepsOwn self.old self.new }
    {
        self.activity = Activity::Ended;
        Ok(Effect::None)
    }
}
