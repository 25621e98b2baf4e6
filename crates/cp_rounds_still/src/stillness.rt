//! Whether anything can still move in a machine.

ghost use Rattle.std.specs.Prelude.{◌≡◌};
ghost use Rattle.cp_rounds_still.specs.Stillness.{ReportsStill, moves};

use cp_inspect::state::ProcState;
use cp_rounds::machine::Machine;

// Whether a process can move: it was started in this round, runs or waits for the clock.
fn can_move(state: ProcState) -> bool
    ensures { result ≡ moves state }
{
    matches!(
        state,
        ProcState::Fresh | ProcState::Ready | ProcState::Waiting
    )
}

/// Whether a machine is still: no process can move. None is ready, was started in this round or
/// waits for the clock, so no further round changes anything but the count.
pub fn is_still(machine: &Machine) -> bool
    ensures { ReportsStill machine.now result }
{
    for i in 0..machine.processes() {
        if can_move(machine.state(i as u32 + 1)) {
            return false;
        }
    }
    true
}
