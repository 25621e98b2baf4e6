//! The components that calls and rights refer to.

ghost use Rattle.std.specs.Prelude.{◌≡◌, ◌+◌, ◌<◌, ◌^◌, ◌+ℤ◌, ℕ, pos, List, length};
ghost use Rattle.cp_model_program.specs.Layout as layout;
ghost use Rattle.cp_private.specs.Keeping.{IsAddressable};
ghost use Rattle.cp_private.specs.Calls.{called_of};
ghost use Rattle.cp_private.specs.States.{holder_of, join, outside_of, stage_of};
ghost use Rattle.cp_model_machine.specs.KernelSteps as kernel;
ghost use Rattle.cp_model_machine.specs.Passing as plain;
ghost use Rattle.cp_program.specs.View as view;

use crate::called::Called;
use crate::kernel_view::{Holder, SchedulingState};
use crate::outside::StepContext;
use crate::private::Private;
use cp_program::operation::Target;
use cp_program::program::Program;

impl<'a> StepContext<'a> {
    // Whether the monitor has been initialised.
    fn is_set(&self, monitor: u32) -> bool
        ensures { result ≡ kernel.is_set (holder_of self.now.gates.now monitor) }
    {
        if monitor == 0 {
            return false;
        }
        match self.gates.get(monitor as usize - 1) {
            Some(gate) => !matches!(gate.holder, Holder::Unset),
            None => false,
        }
    }

    /// Whether the process has been initialised.
    pub(crate) fn is_started(&self, process: u32) -> bool
        ensures { result ≡ kernel.is_started (stage_of self.now.stages.now process) }
    {
        if process == 0 {
            return true;
        }
        !matches!(
            self.stages.get(process as usize - 1),
            Some(SchedulingState::Unstarted)
        )
    }
}

// A word as a natural number, or 0 if it is negative.
fn natural(n: i32) -> u32
    ensures { result ≡ layout.natural n }
{
    if n < 0 { 0 } else { n as u32 }
}

// The address at the distance `far` from `place`.
fn displace(place: usize, far: i32) -> usize
    requires { place < 2 ^ 34 }
    ensures place { result ≡ layout.natural (pos place +ℤ far) }
    ensures small { result < 2 ^ 35 }
{
    if far < 0 {
        place.saturating_sub(far.unsigned_abs() as usize)
    } else {
        place + far as usize
    }
}

impl Private {
    fn member(&self, at: u32) -> usize
        ensures place { result ≡ self.now.memory.component + at }
        ensures small { result < 2 ^ 33 }
    {
        self.memory.component + at as usize
    }

    // The address of the class to which a word of the component holds a right.
    fn class_right(&self, shared: &[i32], at: u32) -> usize
        requires { IsAddressable shared.now }
        ensures place { (input : List ℕ) → result ≡ plain.class_right
            (join self.now input shared.now) at }
        ensures small { result < 2 ^ 35 }
    {
        let place = self.member(at);
        displace(place, self.word(shared, place))
    }

    fn class_callee(&self, shared: &[i32], at: usize) -> Called
        requires { IsAddressable shared.now }
        ensures { (input : List ℕ) → called_of result ≡ plain.class_called
            (join self.now input shared.now) at }
    {
        Called {
            component: at,
            is_set: self.word(shared, at) != 0,
            gate: 0,
        }
    }

    pub(crate) fn monitor_callee(
        &self,
        program: &Program,
        outside: &StepContext,
        monitor: u32,
    ) -> Called
        ensures { called_of result ≡ plain.monitor_called (view.program program.now)
            (outside_of outside.now (length self.now.memory.words.items)) monitor }
    {
        Called {
            component: self.memory.words.len() + program.monitor_start(monitor as usize),
            is_set: outside.is_set(monitor),
            gate: monitor,
        }
    }

    /// The component that a target refers to.
    #[inline(always)]
    pub(crate) fn callee(
        &self,
        program: &Program,
        shared: &[i32],
        outside: &StepContext,
        target: Target,
    ) -> Called
        requires { IsAddressable shared.now }
        ensures { (input : List ℕ) → called_of result ≡ plain.component_called
            (view.program program.now) (outside_of outside.now (length self.now.memory.words.items))
            (join self.now input shared.now) (view.target target) }
    {
        match target {
            Target::Own => Called {
                component: self.memory.component,
                is_set: true,
                gate: 0,
            },
            Target::Class(at) => self.class_callee(shared, self.member(at)),
            Target::ClassRight(at) => self.class_callee(shared, self.class_right(shared, at)),
            Target::Monitor(monitor) => self.monitor_callee(program, outside, monitor),
            Target::MonitorRight(at) => {
                let monitor = natural(self.word(shared, self.member(at)));
                self.monitor_callee(program, outside, monitor)
            }
        }
    }

    // The distance from the word at `from` to the class at `at`, or 0 if either address is
    // missing.
    fn distance_word(&self, shared: &[i32], at: usize, from: usize) -> i32
        requires { IsAddressable shared.now }
        ensures { (input : List ℕ) → result ≡ plain.distance_word
            (join self.now input shared.now) at from }
    {
        let all = self.memory.words.len() + shared.len();
        if at <= all && from <= all {
            at as i32 - from as i32
        } else {
            0
        }
    }

    /// A right as it is passed on, to be stored in the word at `to`.
    pub(crate) fn right_word(&self, shared: &[i32], to: usize, target: Target) -> i32
        requires { IsAddressable shared.now }
        ensures { (input : List ℕ) → result ≡ plain.right_word (join self.now input shared.now) to
            (view.target target) }
    {
        match target {
            Target::Own => 0,
            Target::Class(at) => self.distance_word(shared, self.member(at), to),
            Target::ClassRight(at) => {
                self.distance_word(shared, self.class_right(shared, at), to)
            }
            Target::Monitor(monitor) => monitor_word(monitor),
            Target::MonitorRight(at) => self.word(shared, self.member(at)),
        }
    }
}

// The number of a monitor as a word, or 0 if it doesn't fit in 31 bits.
fn monitor_word(monitor: u32) -> i32
    ensures { result ≡ plain.monitor_word monitor }
{
    if monitor < 0x8000_0000 {
        monitor as i32
    } else {
        0
    }
}
