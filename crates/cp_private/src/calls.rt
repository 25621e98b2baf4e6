//! Calls of routines.

ghost use Rattle.std.specs.Prelude.{◌≡◌, ◌+◌, ◌<◌, ◌^◌, true, ℕ, List, IfSome, MatchOption, length, nat_le};
ghost use Rattle.cp_model_program.specs.Programs.{CodeUnit as PlainUnit, StartPlan};
ghost use Rattle.cp_private.specs.Keeping.{IsAddressable, KeepsRest};
ghost use Rattle.cp_private.specs.Calls.{HasRoom, back};
ghost use Rattle.cp_private.specs.States.{IsStep, join};
ghost use Rattle.cp_model_machine.specs.Calling as plain;
ghost use Rattle.cp_model_machine.specs.PrivateStates as states;
ghost use Rattle.cp_program.specs.View as view;
ghost use Rattle.cp_program.specs.View.{plans_of};

use crate::called::Back;
use crate::effect::Effect;
use crate::frames::enters;
use crate::outside::StepContext;
use crate::passing::Destination;
use crate::private::Private;
use cp_model::state::Fault;
use cp_program::operation::Call;
use cp_program::program::{CodeUnit, Program};

// Whether there are `count` elements after the `before` elements that begin at `first`.
fn fits(first: usize, before: u32, count: u32, all: usize) -> bool
    requires { first < 2 ^ 32 }
    ensures { result ≡ nat_le (first + before + count) all }
{
    first + before as usize + count as usize <= all
}

impl Private {
    // Whether own words, temps and a frame are left for the unit, and its component exists.
    fn has_room(&self, shared: &[i32], call: &Call, unit: &CodeUnit, component: usize) -> bool
        requires { IsAddressable shared.now }
        ensures value { (plans : List StartPlan) (w : states.StepContext) (input : List ℕ)
            → w.own ≡ length self.now.memory.words.items
            → result ≡ plain.has_room w (join self.now input shared.now) (view.call call.now)
            (view.code_unit plans unit.now) component }
        ensures room { result ≡ true → HasRoom self.now shared.now call.now unit.now component }
    {
        if self.limit <= self.depth {
            return false;
        }
        if !fits(
            self.memory.base,
            call.words,
            unit.words,
            self.memory.words.len(),
        ) {
            return false;
        }
        if !fits(
            self.memory.temp,
            call.temps,
            unit.temps,
            self.memory.temps.len(),
        ) {
            return false;
        }
        component <= self.memory.words.len() + shared.len()
    }

    /// The unit of a call, if it exists and there is room for it.
    pub(crate) fn unit_with_room<'a>(
        &self,
        program: &'a Program,
        shared: &[i32],
        call: &Call,
        component: usize,
    ) -> Option<&'a CodeUnit>
        requires { IsAddressable shared.now }
        ensures unit { (w : states.StepContext) (input : List ℕ)
            → w.own ≡ length self.now.memory.words.items
            → let o = join self.now input shared.now in MatchOption result
            ((go : PlainUnit → states.Acting) → plain.with_unit (view.program program.now) w o
            (view.call call.now) component go ≡ states.private_outcome o)
            (λ u. (go : PlainUnit → states.Acting) → plain.with_unit (view.program program.now) w o
            (view.call call.now) component go
            ≡ go (view.code_unit (plans_of program.now) u.now)) }
        ensures room { IfSome result (λ u. HasRoom self.now shared.now call.now u.now component) }
    {
        let unit = program.unit(call.routine)?;
        if self.has_room(shared, call, unit, component) {
            Some(unit)
        } else {
            None
        }
    }

    /// Calls a routine. It isn't inlined, so that steps which call nothing aren't slowed.
    #[inline(never)]
    pub(crate) fn call(
        &mut self,
        program: &Program,
        shared: &mut [i32],
        outside: &StepContext,
        call: &Call,
        link: Back,
    ) -> Result<Effect, Fault>
        requires { IsAddressable shared.old }
        ensures step { IsStep self.old shared.old outside.now self.new shared.new result
            (λ w o. plain.call_step (view.program program.now) w o (view.call call.now) (back
            link)) }
        ensures kept { KeepsRest self.old shared.old self.new shared.new }
    {
        let callee = self.callee(program, shared, outside, call.target);
        let Some(unit) = self.unit_with_room(program, shared, call, callee.component) else {
            return Ok(Effect::None);
        };
        if !callee.is_set {
            return Err(Fault::NotInitialised);
        }
        let to = self.memory.base + call.words as usize;
        let destination = Destination { to, home: to };
        self.pass_all(shared, outside, destination, &call.arguments)?;
        self.start_words(shared, to, program, &unit.starts);
        self.enter(callee, unit, call, link);
        Ok(enters(callee.gate))
    }

    /// Calls a routine, as `call` does. It is inlined. Without shared words nothing looks for them,
    /// which leaves so many registers that the frame is written first. What the frame keeps then
    /// needs no registers while arguments are passed.
    #[inline(always)]
    pub(crate) fn call_here(
        &mut self,
        program: &Program,
        shared: &mut [i32],
        outside: &StepContext,
        call: &Call,
        link: Back,
    ) -> Result<Effect, Fault>
        requires { IsAddressable shared.old }
        ensures step { IsStep self.old shared.old outside.now self.new shared.new result
            (λ w o. plain.call_step (view.program program.now) w o (view.call call.now) (back
            link)) }
        ensures kept { KeepsRest self.old shared.old self.new shared.new }
        ensures activity { self.new.activity ≡ self.old.activity }
    {
        let callee = self.callee(program, shared, outside, call.target);
        let Some(unit) = self.unit_with_room(program, shared, call, callee.component) else {
            return Ok(Effect::None);
        };
        self.keep_frame(callee, link);
        if !callee.is_set {
            return Err(Fault::NotInitialised);
        }
        let to = self.memory.base + call.words as usize;
        let destination = Destination { to, home: to };
        self.pass_all(shared, outside, destination, &call.arguments)?;
        self.start_words(shared, to, program, &unit.starts);
        self.enter_kept(callee, unit, call);
        Ok(enters(callee.gate))
    }
}
