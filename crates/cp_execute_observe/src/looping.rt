//! Whether the state of a run that was stopped at its limit comes again.

ghost use Rattle.std.specs.Prelude.{◌≡◌};
ghost use Rattle.cp_rounds.specs.Views.{machine_of};

use cp_base_config::outcome::{OutcomeForm, UntilStill};
use cp_inspect::state::ProcState;
use cp_outcome::verdict::Verdict;
use cp_outcome_loops::state_loop::{StateLoop, find_loop};
use cp_outcome_reasons::loops::Loop;
use cp_rounds::gate::TurnGate;
use cp_rounds::machine::Machine;
use cp_search_clock::timeless::is_timeless;
use std::alloc::{AllocError, Global};
use std::sync::Wait;
use std::thread::Threads;

// Whether a state that comes again is reported of a machine: in these forms, if its processes still
// move, and its program doesn't use the clock.
fn is_asked(machine: &Machine, verdict: Verdict, form: OutcomeForm<&[u32]>) -> bool {
    matches!(verdict, Verdict::Running)
        && matches!(form, OutcomeForm::Verdict | OutcomeForm::Json)
        && is_timeless(machine.program())
}

// What is reported of a state that came again.
fn loop_of(alloc: Global, machine: &Machine, found: &StateLoop) -> Result<Loop, AllocError> {
    let mut moves = Vec::new(alloc);
    let mut stays = Vec::new(alloc);
    let mut number: u32 = 0;
    for has_moved in &found.moves {
        number = number.saturating_add(1);
        if *has_moved {
            moves.push(number)?;
        } else if machine.state(number) != ProcState::Ended {
            stays.push(number)?;
        }
    }
    Ok(Loop {
        first: found.first,
        again: found.again,
        moves,
        stays,
    })
}

/// A state that came again, if a run was stopped at its limit and has one. The machine is as it was.
/// Fails only if memory runs out or a thread can't be started.
pub(crate) fn found_loop<H: Threads + Wait + Sync, G: TurnGate>(
    rt: &H,
    alloc: Global,
    machine: &mut Machine,
    how: &UntilStill,
    verdict: Verdict,
    form: OutcomeForm<&[u32]>,
    gate: &G,
) -> Result<Option<Loop>, AllocError>
    ensures { machine_of machine.new ≡ machine_of machine.old }
{
    if !is_asked(machine, verdict, form) {
        return Ok(None);
    }
    match find_loop(rt, alloc, machine, how.limit, &how.plan, gate)? {
        Some(found) => Ok(Some(loop_of(alloc, machine, &found)?)),
        None => Ok(None),
    }
}
