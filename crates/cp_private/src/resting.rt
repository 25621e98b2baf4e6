//! Processes that have no private step to make, and what is in the place of a private state
//! that is elsewhere.

ghost use Rattle.std.specs.Prelude.{◌≡◌, ℕ, Bool, List, false, true};
ghost use Rattle.cp_model_program.specs.Programs as code;
ghost use Rattle.cp_private.specs.Resting.{is_idle, is_idle_while};
ghost use Rattle.cp_private.specs.States.{private_of};
ghost use Rattle.cp_model_machine.specs.Machines as machines;
ghost use Rattle.cp_model_machine.specs.Steps as plain;

use crate::private::{Activity, Private};
use cp_program::reach::Memory;
use smallvec::SmallVec;
use std::alloc::Global;

#[inline(always)]
fn has_no_step(activity: Activity, gate: u32, wakes: bool) -> bool
    ensures { result ≡ is_idle_while wakes gate activity }
{
    // Two comparisons, where a match of three cases compiles to a jump by a table.
    if matches!(activity, Activity::Running) {
        return gate != 0;
    }
    !(wakes && matches!(activity, Activity::Waiting))
}

impl Private {
    /// Whether the process has no private step to make in a round, in which the processes
    /// that wait for the clock continue if it wakes them. Its private turn then leaves it as it is.
    #[inline(always)]
    pub fn is_idle(&self, wakes: bool) -> bool
        ensures is_idle { result ≡ is_idle wakes self.now }
        ensures steps { result ≡ true → (program : code.Program) (clock n : ℕ) (input : List ℕ)
            → plain.private_steps program clock n (private_of self.now input)
            ≡ private_of self.now input }
        ensures sleeps { result ≡ true → wakes ≡ true → (input : List ℕ)
            → machines.wake_one (private_of self.now input) ≡ private_of self.now input }
    {
        has_no_step(self.activity, self.gate, wakes)
    }

    /// A private state of no process, for the place of one that is elsewhere. It takes no
    /// memory, and never rests.
    pub fn absent(alloc: Global) -> Private
        ensures { (wakes : Bool) → is_idle wakes result ≡ false }
    {
        Private {
            number: 0,
            activity: Activity::Running,
            counter: 0,
            pause: 0,
            gate: 0,
            memory: Memory {
                words: Vec::new(alloc),
                temps: Vec::new(alloc),
                base: 0,
                temp: 0,
                component: 0,
            },
            frames: SmallVec::new(alloc),
            depth: 0,
            limit: 0,
            output: Vec::new(alloc),
            consumed: 0,
        }
    }
}
