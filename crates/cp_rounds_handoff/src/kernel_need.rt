//! Processes that have no kernel turn to make.

ghost use Rattle.std.specs.Prelude.{◌≡◌, ℕ, List, true};
ghost use Rattle.cp_private.specs.States.{private_of};
ghost use Rattle.cp_program.specs.View as view;
ghost use Rattle.cp_rounds_handoff.specs.Quiet.{needs_no_kernel};
ghost use Rattle.cp_rounds_handoff.specs.Turned.{take_turn};
ghost use Rattle.cp_rounds_handoff.specs.declared.round_time.RoundTime.{RoundTime};

use cp_private::kind::{Kind, next_kind};
use cp_private::private::Private;
use cp_program::program::Program;

/// Whether no step of the kernel is next and nothing that was written is left. If so, the
/// process has no kernel turn to make, whatever the kernel is.
pub(crate) fn needs_no_kernel(program: &Program, private: &Private) -> bool
    ensures { result ≡ true → (input : List ℕ)
        → needs_no_kernel (view.program program.now) (private_of private.now input) ≡ true }
{
    if !private.output().is_empty() {
        return false;
    }
    match next_kind(program, private) {
        Kind::Private => true,
        Kind::Kernel => false,
        Kind::None => true,
    }
}

/// Whether a process is quiet and none of its private turns, whatever the time, has a step:
/// it has ended, or hasn't begun.
pub fn is_idle_forever(program: &Program, private: &Private) -> bool
    ensures without_kernel { result ≡ true → (input : List ℕ)
        → needs_no_kernel (view.program program.now) (private_of private.now input) ≡ true }
    ensures turns { result ≡ true → (t : ℕ) (w : RoundTime) (input : List ℕ)
        → take_turn (view.program program.now) t w (private_of private.now input)
        ≡ private_of private.now input }
{
    private.is_idle(true) && needs_no_kernel(program, private)
}
