//! Lays out the words of monitors, and after them the parameters that wait for processes.

ghost use Rattle.std.specs.Prelude.{List, IfOk};
ghost use Rattle.cp_model.specs.Types.{GlobalScope};
ghost use Rattle.cp_model_program.specs.Compile as code;
ghost use Rattle.cp_model_program.specs.Programs.{StartPlan};
ghost use Rattle.cp_compile.specs.CompiledComponents.{AreOwners};
ghost use Rattle.cp_compile.specs.LaidComponents.{MonitorsLie, ProcessesLie};

use crate::components::Owner;
use cp_compile_symbols::small_sum;
use cp_program::program::{Monitor, Process};
use std::alloc::{AllocError, Global};

/// Monitors that are one after another, and the number of words that they take.
#[derive(Drop)]
pub struct MonitorLayout {
    pub(crate) monitors: Vec<Monitor>,
    pub(crate) words: u32,
}

/// Processes whose waiting parameters are one after another, and the word after all of them.
#[derive(Drop)]
pub struct ProcessLayout {
    pub(crate) processes: Vec<Process>,
    pub(crate) end: u32,
}

/// Lays out monitors, from the first shared word on.
pub fn lay_monitors(alloc: Global, owners: &[Owner]) -> Result<MonitorLayout, AllocError>
    ensures { IfOk result (λ m. (plans : List StartPlan) (g : GlobalScope) (xs : List code.Owner)
        → AreOwners plans g owners.now xs → MonitorsLie plans g m xs) }
{
    let mut monitors = Vec::with_capacity(alloc, owners.len())?;
    let mut at: u32 = 0;
    for owner in owners {
        monitors.push(Monitor {
            start: at,
            body: owner.body,
            words: owner.words,
            plan: owner.plan,
        })?;
        at = small_sum(at, owner.words)?;
    }
    Ok(MonitorLayout {
        monitors,
        words: at,
    })
}

/// Lays out the waiting parameters of processes, from the word `start` on.
pub fn lay_processes(
    alloc: Global,
    owners: &[Owner],
    start: u32,
) -> Result<ProcessLayout, AllocError>
    ensures { IfOk result (λ p. (plans : List StartPlan) (g : GlobalScope) (xs : List code.Owner)
        → AreOwners plans g owners.now xs → ProcessesLie plans g start p xs) }
{
    let mut processes = Vec::with_capacity(alloc, owners.len())?;
    let mut at = start;
    for owner in owners {
        processes.push(Process {
            body: owner.body,
            words: owner.words,
            parameters: at,
            waiting: owner.waiting,
            plan: owner.plan,
        })?;
        at = small_sum(at, owner.waiting)?;
    }
    Ok(ProcessLayout { processes, end: at })
}
