//! What is tested of the program or the machine of a text.
//!
//! A case is a value and not a closure, since a closure is proved as four functions, which takes
//! minutes if it gets a machine. A function that owns a tree, its program and tables or its machine
//! has to drop all of them wherever it can fail, and takes minutes to prove. So each of these
//! functions owns one of them, and lends it to the next.

use crate::machines::machine_of;
use crate::refusals::{Example, count_by_replays, is_made, is_refused, make_rounds, make_run};
use crate::texts::{compiled, tree_of};
use crate::workers::Rounds;
use cp_base_config::plan::Plan;
use cp_base_config::turn::Turn;
use cp_check::checking::CompiledText;
use cp_compile_symbols::Tables;
use cp_model::tree::Tree;
use cp_program::program::Program;
use cp_rounds::gate::TurnGate;
use cp_rounds::machine::Machine;
use std::alloc::Global;
use std::io::Print;
use std::sync::Wait;
use std::test::Fail;
use std::thread::Threads;

// What is tested of a machine.
#[derive(Drop)]
pub(crate) enum MachineCase<'g, G> {
    // It makes rounds with a hook.
    Rounds(Rounds<'g, G>),
    // It makes the rounds of an example one by one, or in one run, or it counts by replays.
    ByRounds(Example, Plan),
    ByRun(Example, Plan),
    ByReplays(Turn),
}

// What is tested of a program.
#[derive(Drop)]
pub(crate) enum Case<'g, G> {
    // The machine of a program with so many words and shared words is refused.
    IsRefused { words: u32, shared: u32 },
    // Its machine isn't refused, and counts.
    IsMade,
    OnMachine(MachineCase<'g, G>),
}

// Whether a machine passes.
fn machine_passes<R: Print + Threads + Wait + Sync, G: TurnGate>(
    rt: &R,
    alloc: Global,
    machine: &mut Machine,
    case: &MachineCase<'_, G>,
) -> Result<bool, Fail> {
    match case {
        MachineCase::Rounds(rounds) => rounds.make(rt, machine),
        MachineCase::ByRounds(example, plan) => make_rounds(rt, machine, *example, plan),
        MachineCase::ByRun(example, plan) => make_run(rt, machine, *example, plan),
        MachineCase::ByReplays(turn) => count_by_replays(rt, alloc, machine, *turn),
    }
}

// Whether the machine of a program passes.
fn machine_of_passes<R: Print + Threads + Wait + Sync, G: TurnGate>(
    rt: &R,
    alloc: Global,
    program: Program,
    tables: &Tables<'_>,
    case: &MachineCase<'_, G>,
) -> Result<bool, Fail> {
    let mut machine = machine_of(alloc, program, tables)?;
    machine_passes(rt, alloc, &mut machine, case)
}

// Whether a program passes.
fn program_passes<R: Print + Threads + Wait + Sync, G: TurnGate>(
    rt: &R,
    alloc: Global,
    program: Program,
    tables: &Tables<'_>,
    case: &Case<'_, G>,
) -> Result<bool, Fail> {
    match case {
        Case::IsRefused { words, shared } => is_refused(alloc, *words, *shared, tables),
        Case::IsMade => is_made(rt, alloc, program, tables),
        Case::OnMachine(case) => machine_of_passes(rt, alloc, program, tables, case),
    }
}

// Whether the program of a tree passes.
fn tree_passes<R: Print + Threads + Wait + Sync, G: TurnGate>(
    rt: &R,
    alloc: Global,
    tree: &Tree,
    case: &Case<'_, G>,
) -> Result<bool, Fail> {
    let CompiledText { program, tables } = compiled(alloc, tree)?;
    program_passes(rt, alloc, program, &tables, case)
}

// Whether the program of a text passes.
pub(crate) fn passes<R: Print + Threads + Wait + Sync, G: TurnGate>(
    rt: &R,
    alloc: Global,
    text: &str,
    case: &Case<'_, G>,
) -> Result<bool, Fail> {
    let tree = tree_of(alloc, text)?;
    tree_passes(rt, alloc, &tree, case)
}
