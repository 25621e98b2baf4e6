//! Ways to make the rounds of a machine.

ghost use Rattle.std.specs.Prelude.{◌<◌, ◌^◌, IfOk};
ghost use Rattle.cp_rounds.specs.Views.{machine_of};

use cp_base_config::plan::Plan;
use cp_rounds::gate::TurnGate;
use cp_rounds::machine::Machine;
use std::sync::Wait;
use std::test::Fail;
use std::thread::Threads;

// A way to make rounds: in one run, whose rounds share their threads, or one by one with threads of
// their own.
#[derive(Clone, Copy)]
pub(crate) struct Way {
    pub(crate) is_run: bool,
    pub(crate) workers: u32,
    pub(crate) chunk: u32,
    pub(crate) wave: u32,
}

// Fails unless a machine has room for many more rounds.
pub(crate) fn is_young(machine: &Machine) -> Result<(), Fail>
    ensures { IfOk result (λ _. (machine_of machine.now).rounds < 2 ^ 63) }
{
    if machine.rounds() >= 1_000_000 {
        return Err("the machine has made too many rounds".into());
    }
    Ok(())
}

impl Way {
    pub(crate) fn new(is_run: bool, workers: u32, chunk: u32, wave: u32) -> Way {
        Way {
            is_run,
            workers,
            chunk,
            wave,
        }
    }

    // Makes `rounds` rounds, with turns of `turn` steps.
    pub(crate) fn make<R: Threads + Wait + Sync, G: TurnGate>(
        self,
        rt: &R,
        machine: &mut Machine,
        rounds: u32,
        turn: u32,
        gate: &G,
    ) -> Result<(), Fail> {
        let plan = Plan::new(turn, self.workers, self.chunk, self.wave)?;
        if self.is_run {
            is_young(machine)?;
            machine.run(rt, rounds, &plan, gate)?;
            return Ok(());
        }
        for _round in 0..rounds {
            is_young(machine)?;
            machine.round(rt, &plan, gate)?;
        }
        Ok(())
    }
}
