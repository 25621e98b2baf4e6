//! Rounds from a state on until it comes again.

ghost use Rattle.std.specs.Prelude.{◌≡◌};
ghost use Rattle.cp_rounds.specs.Views.{KeepsText, machine_of};

use crate::kept::Kept;
use cp_base_config::plan::Plan;
use cp_rounds::gate::TurnGate;
use cp_rounds::machine::Machine;
use std::alloc::{AllocError, Global};
use std::sync::Wait;
use std::thread::Threads;

/// A state that came again.
#[derive(Drop)]
pub struct StateLoop {
    /// After how many rounds it was seen first.
    pub first: u64,
    /// After how many rounds it came again.
    pub again: u64,
    /// For each process by number, from 1, whether it moves in the rounds between: whether it can move,
    /// or is elsewhere, at the end of one of them.
    pub moves: Vec<bool>,
}

// Makes rounds until the state of a machine comes again, and at most `limit`.
#[tactic(auto, using(cp_rounds::proofs::After::text_kept, cp_rounds::proofs::After::text_kept_more))]
fn search<H: Threads + Wait + Sync, G: TurnGate>(
    rt: &H,
    alloc: Global,
    machine: &mut Machine,
    limit: u32,
    plan: &Plan,
    gate: &G,
) -> Result<Option<StateLoop>, AllocError>
    ensures { KeepsText machine.old machine.new }
{
    let kept = Kept::of(alloc, machine)?;
    let first = machine.rounds();
    let mut moves = vec![in alloc; false; machine.processes()]?;
    for _round in 0..limit {
        if machine.rounds() == u64::MAX {
            break;
        }
        machine.round(rt, plan, gate)?;
        kept.mark_moved(machine, &mut moves);
        if kept.is_same(alloc, machine)? {
            return Ok(Some(StateLoop {
                first,
                again: machine.rounds(),
                moves,
            }));
        }
    }
    Ok(None)
}

/// Makes rounds until the state of a machine comes again, apart from what was displayed, and at most
/// `limit`. Then the machine is put back as it was. It has to run a program without the clock.
///
/// # Errors
///
/// `AllocError` if memory runs out or a thread can't be started.
pub fn find_loop<H: Threads + Wait + Sync, G: TurnGate>(
    rt: &H,
    alloc: Global,
    machine: &mut Machine,
    limit: u32,
    plan: &Plan,
    gate: &G,
) -> Result<Option<StateLoop>, AllocError>
    ensures { machine_of machine.new ≡ machine_of machine.old }
{
    let before = machine.checkpoint()?;
    let found = search(rt, alloc, machine, limit, plan, gate);
    machine.restore(before);
    found
}
