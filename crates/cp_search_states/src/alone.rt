//! A kernel and the private state of one process, without the others. A late step of the process
//! and the eager steps after it are the same in each state that has both.

ghost use Rattle.std.specs.Prelude.{◌≡◌, ◌≤◌, ℕ, List, IfOk, true, Some};
ghost use Rattle.cp_program.specs.View as view;
ghost use Rattle.cp_private.specs.States.{private_of};
ghost use Rattle.cp_kernel.specs.KernelOf.{kernel_of};
ghost use Rattle.cp_model_machine.specs.KernelSteps.{is_begun, stage_of};
ghost use Rattle.cp_law_calls.specs.Ways as plain;
ghost use Rattle.cp_law_cores.specs.Clocks.{is_timeless};
ghost use Rattle.cp_law_cores.specs.Turns.{NoneFresh};
ghost use Rattle.cp_law_exploring.specs.Exploring.{count};
ghost use Rattle.cp_law_search.specs.Calls.{way_on};
ghost use Rattle.cp_search_states.specs.Alone.{AreNumbered, GoesOn, HasAdvanced, IsMove, StepsCalmly, WakesNobody};
ghost use Rattle.cp_search_states.specs.SearchStates.{core_of, way_view};

use crate::settling::StepLimit;
use crate::state::SearchState;
use crate::steps::{make_step, make_turn};
use crate::ways::{Way, is_eager, way_of};
use cp_base_config::turn::Turn;
use cp_kernel::closing::end_round;
use cp_kernel::kernel::Kernel;
use cp_law_cores::law as cores;
use cp_law_exploring::law;
use cp_private::kind::{Kind, next_kind};
use cp_private::private::Private;
use cp_private::private_box::PrivateBox;
use cp_program::program::Program;
use std::alloc::{AllocError, Global};

/// A kernel and the private state of one process.
#[derive(Drop)]
pub struct Lone {
    pub kernel: Kernel,
    pub private: Private,
}

// Whether nobody is fresh, so that the end of the round changes nothing. Only the answer `true` is
// proved to be right.
fn is_calm(alloc: Global, program: &Program, kernel: &Kernel) -> Result<bool, AllocError>
    ensures { IfOk result (λ calm. calm ≡ true → NoneFresh (kernel_of kernel.now)) }
{
    law::settling();
    let mut closed = kernel.copy_without_transcripts(alloc)?;
    let mut nobody: Vec<PrivateBox> = Vec::new(alloc);
    end_round(program, &mut closed, &mut nobody);
    Ok(closed.is_same(kernel))
}

// Whether a process that has begun, and neither asks nor is delayed, was such a one before.
fn was_begun(before: &Kernel, after: &Kernel, p: u32) -> bool
    ensures { result ≡ true → is_begun (stage_of (kernel_of after.now).stages p) ≡ true
        → is_begun (stage_of (kernel_of before.now).stages p) ≡ true }
{
    if after.is_begun(p) {
        return before.is_begun(p);
    }
    true
}

// The same, of all processes. Only the answer `true` is proved to be right.
fn wakes_nobody(program: &Program, before: &Kernel, after: &Kernel) -> bool
    ensures { result ≡ true → WakesNobody (count (view.program program.now))
        (kernel_of before.now) (kernel_of after.now) }
{
    if u32::MAX as usize <= program.processes() {
        return false;
    }
    for i in 0..program.processes() {
        if !was_begun(before, after, i as u32 + 1) {
            return false;
        }
    }
    true
}

// Whether the number of a process is at most the count of processes.
fn has_number(program: &Program, private: &Private) -> bool
    ensures { result ≡ true → (input : List ℕ)
        → (private_of private.now input).number ≤ count (view.program program.now) }
{
    if program.processes() < private.number() {
        return false;
    }
    true
}

impl SearchState {
    /// Whether the numbers of the processes are at most their count. Only the answer `true` is
    /// proved to be right.
    pub fn has_numbers(&self, program: &Program) -> bool
        ensures { result ≡ true → (inputs : ℕ → List ℕ)
            → AreNumbered (view.program program.now) (core_of inputs self.now) }
    {
        for i in 0..self.privates.len() {
            if !has_number(program, self.privates[i].private()) {
                return false;
            }
        }
        true
    }
}

impl Lone {
    /// A kernel and a private state, copied.
    ///
    /// # Errors
    ///
    /// `AllocError` if memory runs out.
    pub fn of(alloc: Global, kernel: &Kernel, private: &Private) -> Result<Lone, AllocError>
        ensures kernel { IfOk result (λ lone. kernel_of lone.kernel ≡ kernel_of kernel.now) }
        ensures private { IfOk result (λ lone. (input : List ℕ)
            → private_of lone.private input ≡ private_of private.now input) }
    {
        let kernel = kernel.copy_without_transcripts(alloc)?;
        let private = private.copy(alloc)?;
        Ok(Lone { kernel, private })
    }

    /// The way of the process.
    pub fn way(&self, program: &Program) -> Way
        ensures { (input : List ℕ) → way_view result ≡ way_on (view.program program.now)
            (kernel_of self.now.kernel) (Some (private_of self.now.private input)) }
    {
        way_of(program, &self.kernel, &self.private)
    }

    // Makes a kernel turn of one step. Returns whether it could be made, and nobody is fresh after
    // it.
    fn step(&mut self, alloc: Global, program: &Program, input: &[u8]) -> Result<bool, AllocError>
        ensures { IfOk result (λ done. done ≡ true → StepsCalmly (view.program program.now)
            self.old self.new input.now) }
    {
        if !make_step(program, &mut self.kernel, &mut self.private, input)? {
            return Ok(false);
        }
        is_calm(alloc, program, &self.kernel)
    }

    // Makes an eager step. Returns whether it could be made, and nobody is fresh after it.
    fn make_eager_step(
        &mut self,
        alloc: Global,
        program: &Program,
        input: &[u8],
        turn: Turn,
    ) -> Result<bool, AllocError>
        requires timeless { is_timeless (view.program program.now) ≡ true }
        requires eager { way_on (view.program program.now) (kernel_of self.old.kernel)
            (Some (private_of self.old.private input.now)) ≡ plain.Eager }
        ensures { IfOk result (λ done. done ≡ true → GoesOn (view.program program.now)
            (kernel_of self.old.kernel) (private_of self.old.private input.now)
            (kernel_of self.new.kernel) (private_of self.new.private input.now)) }
    {
        law::settling();
        cores::searching();
        match next_kind(program, &self.private) {
            Kind::Private => {
                make_turn(program, &mut self.private, input, turn)?;
                Ok(true)
            }
            Kind::Kernel => self.step(alloc, program, input),
            Kind::None => Ok(false),
        }
    }

    // Makes the late step, and eager steps until there is none. Returns whether it came so far, and
    // nobody was fresh after any step.
    fn run(
        &mut self,
        alloc: Global,
        program: &Program,
        input: &[u8],
        step_limit: StepLimit,
    ) -> Result<bool, AllocError>
        requires timeless { is_timeless (view.program program.now) ≡ true }
        ensures { IfOk result (λ done. done ≡ true → HasAdvanced (view.program program.now)
            (kernel_of self.old.kernel) (private_of self.old.private input.now)
            (kernel_of self.new.kernel) (private_of self.new.private input.now)) }
    {
        law::settling();
        cores::searching();
        if !self.step(alloc, program, input)? {
            return Ok(false);
        }
        for _turn in 0..step_limit.turns {
            if !is_eager(self.way(program)) {
                return Ok(true);
            }
            if !self.make_eager_step(alloc, program, input, step_limit.turn)? {
                return Ok(false);
            }
        }
        Ok(false)
    }

    /// Makes the late step of the process, and eager steps until it has none. Returns whether it
    /// came so far, and no other process has an eager step because of it.
    ///
    /// # Errors
    ///
    /// `AllocError` if memory runs out.
    pub fn advance(
        &mut self,
        alloc: Global,
        program: &Program,
        input: &[u8],
        step_limit: StepLimit,
    ) -> Result<bool, AllocError>
        requires timeless { is_timeless (view.program program.now) ≡ true }
        ensures { IfOk result (λ done. done ≡ true → IsMove (view.program program.now)
            (kernel_of self.old.kernel) (private_of self.old.private input.now)
            (kernel_of self.new.kernel) (private_of self.new.private input.now)) }
    {
        law::settling();
        let before = self.kernel.copy_without_transcripts(alloc)?;
        if !self.run(alloc, program, input, step_limit)? {
            return Ok(false);
        }
        if !has_number(program, &self.private) {
            return Ok(false);
        }
        Ok(wakes_nobody(program, &before, &self.kernel))
    }
}
