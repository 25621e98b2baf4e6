//! The ways of processes: whether the next step is eager or late.

ghost use Rattle.std.specs.Prelude.{◌≡◌, ◌≤◌, true, false, ℕ, List, None, Some, IfSome, slice_get};
ghost use Rattle.cp_program.specs.View as view;
ghost use Rattle.cp_private.specs.States.{private_of};
ghost use Rattle.cp_kernel.specs.KernelOf.{kernel_of};
ghost use Rattle.cp_law_calls.specs.Ways as plain;
ghost use Rattle.cp_law_search.specs.Calls as calls;
ghost use Rattle.cp_model_machine.specs.PrivateStates as private_states;
ghost use Rattle.cp_model_machine.specs.Steps as steps;
ghost use Rattle.cp_law_exploring.specs.Exploring.{count};
ghost use Rattle.cp_search_states.specs.SearchStates.{core_of, way_view};

use crate::state::SearchState;
use cp_kernel::kernel::Kernel;
use cp_private::private::{Activity, Private};
use cp_program::operation::{Operation, Target};
use cp_program::program::Program;

/// Whether the next step of a process is eager or late.
#[derive(Clone, Copy)]
pub enum Way {
    /// There is no next step.
    Idle,
    Eager,
    Late,
}

fn is_monitor(target: Target) -> bool
    ensures { result ≡ steps.is_monitor (view.target target) }
{
    matches!(target, Target::Monitor(_) | Target::MonitorRight(_))
}

fn is_late(operation: &Operation) -> bool
    ensures { result ≡ calls.is_late_operation (view.operation operation.now) }
{
    match operation {
        Operation::Procedure { call, .. } | Operation::Function { call, .. } => {
            is_monitor(call.target)
        }
        Operation::InitMonitor { .. } => true,
        _ => false,
    }
}

fn is_late_at(program: &Program, place: u32) -> bool
    ensures { result ≡ calls.is_late_at (slice_get (view.program program.now).operations place) }
{
    match program.operation(place) {
        Some(operation) => is_late(operation),
        None => false,
    }
}

fn is_running(private: &Private) -> bool
    ensures { (input : List ℕ) → result ≡ private_states.is_running
        (private_of private.now input).activity }
{
    matches!(private.activity(), Activity::Running)
}

pub(crate) fn is_eager(way: Way) -> bool
    ensures yes { result ≡ true → way_view way ≡ plain.Eager }
    ensures no { result ≡ false → way_view way ≡ plain.Eager → ⊥ }
{
    matches!(way, Way::Eager)
}

pub(crate) fn way_of(program: &Program, kernel: &Kernel, private: &Private) -> Way
    ensures { (input : List ℕ) → way_view result ≡ calls.way_on (view.program program.now)
        (kernel_of kernel.now) (Some (private_of private.now input)) }
{
    if !is_running(private) {
        return Way::Idle;
    }
    if !kernel.is_begun(private.number() as u32) {
        return Way::Idle;
    }
    if is_late_at(program, private.counter()) {
        Way::Late
    } else {
        Way::Eager
    }
}

impl SearchState {
    /// The way of process p.
    pub fn way(&self, program: &Program, p: usize) -> Way
        requires { 1 ≤ p }
        ensures { (inputs : ℕ → List ℕ) → way_view result ≡ calls.way_at
            (view.program program.now) (core_of inputs self.now) p }
    {
        match self.privates.get(p - 1) {
            Some(private) => way_of(program, &self.kernel, private.private()),
            None => Way::Idle,
        }
    }

    /// The first process with an eager step.
    pub fn first_eager(&self, program: &Program) -> Option<usize>
        ensures first { IfSome result (λ p. 1 ≤ p) }
        ensures last { IfSome result (λ p. p ≤ count (view.program program.now)) }
        ensures eager { IfSome result (λ p. (inputs : ℕ → List ℕ)
            → calls.way_at (view.program program.now) (core_of inputs self.now) p ≡ plain.Eager) }
        ensures none { result ≡ None → (inputs : ℕ → List ℕ) (p : ℕ) → 1 ≤ p
            → p ≤ count (view.program program.now)
            → calls.way_at (view.program program.now) (core_of inputs self.now) p ≡ plain.Eager
            → ⊥ }
    {
        for i in 0..program.processes() {
            if is_eager(self.way(program, i + 1)) {
                return Some(i + 1);
            }
        }
        None
    }
}
