//! Running a program and writing, round by round, what became of its processes and monitors.

ghost use Rattle.std.specs.Prelude.{◌≡◌, IfErr, IfOk, OnOk};
ghost use Rattle.cp_model.specs.Rules.{Accepted};
ghost use Rattle.cp_model.specs.View as view;
ghost use Rattle.cp_frontend.specs.Inputs.{inputs_of};
ghost use Rattle.cp_execute_observe.specs.Writing.{Extends, IsMemoryOrWrite, WritesTrace};
ghost use Rattle.cp_execute_observe.specs.Traces.{IsTraced, IsTracedFrom};

use crate::rounds::trace;
use cp_base_config::trace::Tracing;
use cp_check::checking::{CompiledText, compile_accepted};
use cp_execute_start::starting::machine_at_start;
use cp_frontend::inputs::ProcessInputs;
use cp_frontend::refusal::Refusal;
use cp_frontend::sources::AcceptedText;
use cp_model::tree::Tree;
use cp_rounds::finished_machine::FinishedMachine;
use cp_rounds::gate::TurnGate;
use cp_rounds::machine::Machine;
use std::alloc::Global;
use std::io::Write;
use std::sync::Wait;
use std::thread::Threads;

// Makes all rounds of a machine at its start, writes what is reported of each, and returns the
// machine after the last one.
fn trace_machine<'t, H: Threads + Wait + Sync, W: Write, G: TurnGate>(
    rt: &H,
    alloc: Global,
    tree: &'t Tree,
    mut machine: Machine<'_, 't>,
    only: &[&str],
    how: &Tracing,
    gate: &G,
    out: &mut W,
) -> Result<FinishedMachine, Refusal>
    requires first { machine.rounds ≡ 0 }
    ensures state { IfOk result (IsTracedFrom how.now machine.entry) }
    ensures reported { OnOk result
        (WritesTrace how.now (W.contents out.old) (W.contents out.new)) }
    ensures written { Extends (W.contents out.old) (W.contents out.new) }
    ensures fault { IfErr result IsMemoryOrWrite }
{
    trace(rt, alloc, tree, &mut machine, only, how, gate, out)?;
    Ok(machine.halt())
}

/// Runs the program of an accepted text, whose processes read these inputs. Writes what is reported
/// of each round from the first that is reported, and returns the machine after the last round.
/// Only the processes and monitors with the names in `only` are reported, or all if it is empty.
///
/// # Errors
///
/// M if memory runs out, I2 if a write fails.
pub fn machine_after_trace<H: Threads + Wait + Sync, W: Write, G: TurnGate>(
    rt: &H,
    alloc: Global,
    accepted: &AcceptedText,
    inputs: &ProcessInputs,
    only: &[&str],
    how: &Tracing,
    gate: &G,
    out: &mut W,
) -> Result<FinishedMachine, Refusal>
    requires accepted { Accepted (view.tree accepted.now.tree) }
    ensures state { IfOk result
        (λ machine. IsTraced how.now (view.tree accepted.now.tree) (inputs_of inputs.now)
        machine) }
    ensures reported { OnOk result
        (WritesTrace how.now (W.contents out.old) (W.contents out.new)) }
    ensures written { Extends (W.contents out.old) (W.contents out.new) }
    ensures fault { IfErr result IsMemoryOrWrite }
{
    let compiled = compile_accepted(alloc, accepted.key, &accepted.tree)?;
    let CompiledText { program, tables } = compiled;
    let machine = machine_at_start(alloc, program, &tables, inputs, how.tick)?;
    trace_machine(rt, alloc, &accepted.tree, machine, only, how, gate, out)
}
