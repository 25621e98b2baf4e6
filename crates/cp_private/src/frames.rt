//! Frames: what is kept for callers, and the registers of the running activation.

ghost use Rattle.std.specs.Prelude.{◌≡◌, ◌+◌, ◌-◌, ◌<◌, ◌^◌, ℕ, ℤ, suc, ◌∷◌, List, MatchOption, length, slice_get};
ghost use Rattle.cp_model_program.specs.Starts as starts;
ghost use Rattle.cp_model.specs.declared.state.Fault.TheVariants as fault;
ghost use Rattle.cp_private.specs.Keeping.{IsAddressable, KeepsOwn, KeepsRegisters};
ghost use Rattle.cp_private.specs.States.{effect, frame as view_frame, frame_or_none, frames_in, join};
ghost use Rattle.cp_private.specs.Calls.{HasKept, back, called_of, returning, value_to_return};
ghost use Rattle.cp_model_program.specs.Programs.{StartPlan};
ghost use Rattle.cp_model_machine.specs.Calling as plain;
ghost use Rattle.cp_model_machine.specs.PrivateStates.{Enters, Leaves};
ghost use Rattle.cp_program.specs.View as view;

use crate::called::{Back, Called};
use crate::effect::Effect;
use crate::private::{Frame, Private};
use cp_model::state::Fault;
use cp_program::operation::Call;
use cp_program::program::CodeUnit;

/// The word of a result that has not been set.
const UNSET: i32 = i32::MIN;

/// The effect of entering a monitor. The number 0 represents no monitor.
pub(crate) fn enters(gate: u32) -> Effect
    ensures { effect result ≡ plain.gate_effect gate Enters }
{
    if gate == 0 {
        Effect::None
    } else {
        Effect::Enters(gate)
    }
}

pub(crate) fn leaves(gate: u32) -> Effect
    ensures { effect result ≡ plain.gate_effect gate Leaves }
{
    if gate == 0 {
        Effect::None
    } else {
        Effect::Leaves(gate)
    }
}

impl Private {
    /// The frame of the innermost call, if there is one.
    pub(crate) fn innermost(&self) -> Option<Frame>
        ensures { MatchOption result (self.now.depth ≡ 0) (λ f. (depth : ℕ)
            × (self.now.depth ≡ suc depth)
            × (frames_in self.now.depth self.now.frames.items ≡ view_frame f ∷ frames_in depth
            self.now.frames.items)) }
    {
        let depth = self.depth;
        if depth == 0 {
            return None;
        }
        Some(self.frames[depth - 1])
    }

    // Writes the frame above those in use.
    #[inline(always)]
    fn write_frame(&mut self, frame: Frame)
        requires { self.old.depth < length self.old.frames.items }
        ensures frame { frame_or_none (slice_get self.new.frames.items self.new.depth)
            ≡ view_frame frame }
        ensures step { (input : List ℕ) (shared : List ℤ)
            → join self.new input shared ≡ join self.old input shared }
        ensures kept { KeepsOwn self.old self.new }
        ensures registers { KeepsRegisters self.old self.new }
    {
        let depth = self.depth;
        self.frames[depth] = frame;
    }

    /// Keeps what the caller needs above the frames in use.
    #[inline(always)]
    pub(crate) fn keep_frame(&mut self, callee: Called, link: Back)
        requires { self.old.depth < length self.old.frames.items }
        ensures frame { HasKept self.new (called_of callee) (back link) }
        ensures step { (input : List ℕ) (shared : List ℤ)
            → join self.new input shared ≡ join self.old input shared }
        ensures kept { KeepsOwn self.old self.new }
        ensures registers { KeepsRegisters self.old self.new }
    {
        let frame = Frame {
            counter: link.counter,
            base: self.memory.base,
            temp: self.memory.temp as u32,
            component: self.memory.component as u32,
            into: link.into,
            gate: callee.gate,
            held: self.gate,
        };
        self.write_frame(frame);
    }

    /// Enters the unit in the component whose routine is called. The frame that was kept is then in
    /// use.
    #[inline(always)]
    pub(crate) fn enter_kept(&mut self, callee: Called, unit: &CodeUnit, call: &Call)
        requires frame { self.old.depth < length self.old.frames.items }
        requires base { self.old.memory.base + call.now.words < 2 ^ 32 }
        requires temp { self.old.memory.temp + call.now.temps < 2 ^ 32 }
        requires component { callee.component < 2 ^ 32 }
        ensures step { (link : plain.Back) (plans : List StartPlan) (input : List ℕ)
            (shared : List ℤ) → HasKept self.old (called_of callee) link
            → join self.new input shared ≡ plain.enter
            (join self.old input shared) (called_of callee) (view.code_unit plans unit.now)
            (view.call call.now) link }
        ensures kept { KeepsOwn self.old self.new }
        ensures activity { self.new.activity ≡ self.old.activity }
    {
        self.pause = self.counter;
        self.counter = unit.start;
        self.memory.base += call.words as usize;
        self.memory.temp += call.temps as usize;
        self.memory.component = callee.component;
        if callee.gate != 0 {
            self.gate = callee.gate;
        }
        self.depth += 1;
    }

    /// Enters the unit in the component whose routine is called. A frame keeps what the caller
    /// needs.
    #[inline(always)]
    pub(crate) fn enter(&mut self, callee: Called, unit: &CodeUnit, call: &Call, link: Back)
        requires frame { self.old.depth < length self.old.frames.items }
        requires base { self.old.memory.base + call.now.words < 2 ^ 32 }
        requires temp { self.old.memory.temp + call.now.temps < 2 ^ 32 }
        requires component { callee.component < 2 ^ 32 }
        ensures step { (plans : List StartPlan) (input : List ℕ) (shared : List ℤ)
            → join self.new input shared ≡ plain.enter
            (join self.old input shared) (called_of callee) (view.code_unit plans unit.now)
            (view.call call.now) (back link) }
        ensures kept { KeepsOwn self.old self.new }
        ensures activity { self.new.activity ≡ self.old.activity }
    {
        self.keep_frame(callee, link);
        self.enter_kept(callee, unit, call);
    }

    /// The value that the running routine returns, if it is a function.
    pub(crate) fn value_to_return(
        &self,
        shared: &[i32],
        function: bool,
    ) -> Result<Option<i32>, Fault>
        requires { IsAddressable shared.now }
        ensures { (input : List ℕ) → result ≡ value_to_return (join self.now input shared.now)
            function }
    {
        if !function {
            return Ok(None);
        }
        let value = self.word(shared, self.memory.base);
        if value == UNSET {
            return Err(Fault::NoResult);
        }
        Ok(Some(value))
    }

    /// Returns to the caller, which receives the value.
    pub(crate) fn return_to(&mut self, caller: Frame, value: Option<i32>)
        requires { 0 < self.old.depth }
        ensures step { (input : List ℕ) (shared : List ℤ)
            → join self.new input shared ≡ plain.leave
            (returning (join self.old input shared) (view_frame caller) value) (view_frame caller)
            (frames_in (self.old.depth - 1) self.old.frames.items) }
        ensures kept { KeepsOwn self.old self.new }
        ensures activity { self.new.activity ≡ self.old.activity }
        ensures gate { self.new.gate ≡ caller.held }
    {
        self.depth -= 1;
        self.counter = caller.counter;
        self.memory.base = caller.base;
        self.memory.temp = caller.temp as usize;
        self.memory.component = caller.component as usize;
        self.gate = caller.held;
        if let Some(value) = value {
            self.set_temp(caller.temp as usize + caller.into as usize, value);
        }
    }
}
