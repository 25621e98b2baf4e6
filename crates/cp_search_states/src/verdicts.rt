//! Whether a state is neither faulted nor stuck, if servers may wait forever.

ghost use Rattle.std.specs.Prelude.{◌≡◌, ◌≤◌, ◌-◌, ℕ, Bool, List, true, false, Some, option_map};
ghost use Rattle.cp_model_machine.specs.KernelSteps.{stage_of};
ghost use Rattle.cp_law_cores.specs.Cores.{part};
ghost use Rattle.cp_law_cores.specs.Verdicts as plain;
ghost use Rattle.cp_private.specs.States as views;
ghost use Rattle.cp_private.specs.States.{private_of};
ghost use Rattle.cp_kernel.specs.KernelOf.{kernel_of};
ghost use Rattle.cp_program.specs.View as view;
ghost use Rattle.cp_law_exploring.specs.Exploring.{count};
ghost use Rattle.cp_law_servers.specs.Servers as served;
ghost use Rattle.cp_search_states.specs.SearchStates.{core_of};
ghost use Rattle.cp_search_states.specs.Verdicts.{AllDone, AllPass, IsFine, OneMoves};

use crate::state::SearchState;
use cp_kernel::kernel::Kernel;
use cp_private::kernel_view::SchedulingState;
use cp_private::private::{Activity, Private};
use cp_program::program::Program;

fn has_no_fault(activity: Activity) -> bool
    ensures { result ≡ plain.is_sound (views.activity activity) }
{
    !matches!(activity, Activity::Faulted(_))
}

fn has_ended(activity: Activity) -> bool
    ensures { result ≡ plain.is_end (views.activity activity) }
{
    matches!(activity, Activity::Ended)
}

fn is_active(activity: Activity) -> bool
    ensures { result ≡ plain.is_active (views.activity activity) }
{
    matches!(activity, Activity::Running | Activity::Waiting)
}

fn moves(stage: SchedulingState, activity: Activity) -> bool
    ensures { result ≡ plain.moves (views.stage stage) (views.activity activity) }
{
    match stage {
        SchedulingState::Fresh => true,
        SchedulingState::Begun => is_active(activity),
        _ => false,
    }
}

fn can_move(kernel: &Kernel, private: &Private) -> bool
    ensures { (input : List ℕ) → result ≡ plain.can_move (kernel_of kernel.now)
        (Some (private_of private.now input)) }
{
    moves(kernel.stage(private.number() as u32), private.activity())
}

// Whether a process with this number, stage and activity has ended, or is a server and is delayed.
fn is_done_at(servers: &[u32], number: u32, stage: SchedulingState, activity: Activity) -> bool
    ensures { result ≡ served.is_done_at servers.now number (views.stage stage)
        (views.activity activity) }
{
    if has_ended(activity) {
        return true;
    }
    match stage {
        SchedulingState::Delayed { .. } => servers.contains(&number),
        _ => false,
    }
}

fn is_done(servers: &[u32], kernel: &Kernel, private: &Private) -> bool
    ensures { (input : List ℕ) → result ≡ served.part_is_done servers.now (kernel_of kernel.now)
        (Some (private_of private.now input)) }
{
    let number = private.number() as u32;
    is_done_at(servers, number, kernel.stage(number), private.activity())
}

impl SearchState {
    /// The private state of process p, if there is one.
    pub fn private(&self, p: usize) -> Option<&Private>
        requires { 1 ≤ p }
        ensures { (inputs : ℕ → List ℕ) → option_map (λ x. private_of x.now (inputs p)) result
            ≡ part (core_of inputs self.now).parts p }
    {
        match self.privates.get(p - 1) {
            Some(private_box) => Some(private_box.private()),
            None => None,
        }
    }

    fn is_sound_at(&self, p: usize) -> bool
        requires { 1 ≤ p }
        ensures { (inputs : ℕ → List ℕ) → result ≡ plain.part_passes plain.is_sound
            (part (core_of inputs self.now).parts p) }
    {
        match self.private(p) {
            Some(private) => has_no_fault(private.activity()),
            None => true,
        }
    }

    fn is_done_at(&self, servers: &[u32], p: usize) -> bool
        requires { 1 ≤ p }
        ensures { (inputs : ℕ → List ℕ) → result ≡ served.part_is_done servers.now
            (kernel_of self.now.kernel) (part (core_of inputs self.now).parts p) }
    {
        match self.private(p) {
            Some(private) => is_done(servers, &self.kernel, private),
            None => true,
        }
    }

    fn can_move_at(&self, p: usize) -> bool
        requires { 1 ≤ p }
        ensures { (inputs : ℕ → List ℕ) → result ≡ plain.can_move (kernel_of self.now.kernel)
            (part (core_of inputs self.now).parts p) }
    {
        match self.private(p) {
            Some(private) => can_move(&self.kernel, private),
            None => false,
        }
    }

    /// Whether nobody has a fault. Only the answer `true` is proved to be right.
    pub fn is_sound(&self, program: &Program) -> bool
        ensures { result ≡ true → AllPass plain.is_sound (count (view.program program.now))
            self.now }
    {
        for i in 0..program.processes() {
            if !self.is_sound_at(i + 1) {
                return false;
            }
        }
        true
    }

    /// Whether each has ended, or is a server and is delayed. Only the answer `true` is proved to be
    /// right.
    pub fn is_done(&self, program: &Program, servers: &[u32]) -> bool
        ensures { result ≡ true → AllDone servers.now (count (view.program program.now))
            self.now }
    {
        for i in 0..program.processes() {
            if !self.is_done_at(servers, i + 1) {
                return false;
            }
        }
        true
    }

    /// Whether somebody can move. Only the answer `true` is proved to be right.
    pub fn proceeds(&self, program: &Program) -> bool
        ensures { result ≡ true → OneMoves (count (view.program program.now)) self.now }
    {
        for i in 0..program.processes() {
            if self.can_move_at(i + 1) {
                return true;
            }
        }
        false
    }

    /// Whether nobody has a fault, and somebody can move or all are done. Only the answer `true` is
    /// proved to be right.
    pub fn is_acceptable(&self, program: &Program, servers: &[u32]) -> bool
        ensures { result ≡ true → (inputs : ℕ → List ℕ)
            → IsFine servers.now (count (view.program program.now)) (core_of inputs self.now) }
    {
        if !self.is_sound(program) {
            return false;
        }
        self.is_done(program, servers) || self.proceeds(program)
    }
}
