//! What became of the processes of a machine.

ghost use Rattle.std.specs.Prelude.{◌≡◌};
ghost use Rattle.cp_law_cores.specs.Verdicts.{has_no_fault};
ghost use Rattle.cp_outcome.specs.Verdicts.{EndedMeansDone, IsVerdictOn, ReportsAll, ReportsDone, done, sound};

use cp_inspect::state::ProcState;
use cp_law_servers::law;
use cp_rounds::machine::Machine;
use cp_rounds_still::stillness::is_still;

/// What became of the processes of a machine.
#[derive(Clone, Copy)]
pub enum Verdict {
    /// All are done: each has ended, or is a server and is delayed.
    Ended,
    /// None can move, and none has faulted, but not all are done.
    Stuck,
    /// None can move, and some have faulted.
    Fault,
    /// Some can move.
    Running,
}

fn is_sound(state: ProcState) -> bool
    ensures { result ≡ sound state }
{
    !matches!(state, ProcState::Faulted(_))
}

// Whether a process in a state has ended, or is a server and is delayed.
fn is_done(servers: &[u32], process: u32, state: ProcState) -> bool
    ensures { result ≡ done servers.now process state }
{
    match state {
        ProcState::Ended => true,
        ProcState::Delayed { .. } => servers.contains(&process),
        _ => false,
    }
}

/// Whether nobody has a fault.
pub fn none_has_faulted(machine: &Machine) -> bool
    ensures { ReportsAll has_no_fault machine.now result }
{
    for i in 0..machine.processes() {
        if !is_sound(machine.state(i as u32 + 1)) {
            return false;
        }
    }
    true
}

fn all_are_done(machine: &Machine, servers: &[u32]) -> bool
    ensures { ReportsDone servers.now machine.now result }
{
    for i in 0..machine.processes() {
        let number = i as u32 + 1;
        if !is_done(servers, number, machine.state(number)) {
            return false;
        }
    }
    true
}

fn judge(machine: &Machine, servers: &[u32]) -> Verdict
    ensures { IsVerdictOn servers.now machine.now result }
{
    if !is_still(machine) {
        Verdict::Running
    } else if !none_has_faulted(machine) {
        Verdict::Fault
    } else if all_are_done(machine, servers) {
        Verdict::Ended
    } else {
        Verdict::Stuck
    }
}

/// The verdict on a machine: whether its processes can move, and if none can, whether one has
/// faulted or all are done. The servers, by their numbers, may wait forever.
pub fn verdict_on(machine: &Machine, servers: &[u32]) -> Verdict
    ensures verdict { IsVerdictOn servers.now machine.now result }
    ensures ended { EndedMeansDone servers.now machine.now result }
{
    law::states();
    judge(machine, servers)
}
