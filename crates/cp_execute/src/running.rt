//! Running a program: from its inputs to its report.

ghost use Rattle.std.specs.Prelude.{◌≡◌, IfErr, IfOk};
ghost use Rattle.cp_model.specs.Rules.{Accepted};
ghost use Rattle.cp_model.specs.View as view;
ghost use Rattle.cp_rounds.specs.Views.{KeepsText, machine_of};
ghost use Rattle.cp_execute.specs.Executed.{IsDue, IsDueOf};
ghost use Rattle.cp_execute.specs.MachineReports.{IsReport, ReportsRun};
ghost use Rattle.cp_frontend.specs.Inputs.{inputs_of};
ghost use Rattle.cp_frontend.specs.declared.refusal.Refusal.TheVariants as refusal;

use cp_base_config::run::Run;
use cp_check::checking::{CompiledText, compile_accepted};
use cp_compile_symbols::Tables;
use cp_execute_start::starting::machine_at_start;
use cp_frontend::inputs::ProcessInputs;
use cp_frontend::refusal::Refusal;
use cp_frontend::sources::AcceptedText;
use cp_model_machine::law::{reports, waits};
use cp_program::program::Program;
use cp_report::report::{report, report_with_chains};
use cp_rounds::gate::TurnGate;
use cp_rounds::machine::Machine;
use std::alloc::{AllocError, Global};
use std::sync::Wait;
use std::thread::Threads;

/// The report of a machine, with the chains of askers if they are asked for.
///
/// # Errors
///
/// `AllocError` if memory runs out.
pub(crate) fn report_of(
    alloc: Global,
    machine: &Machine,
    chains: bool,
) -> Result<Vec<u8>, AllocError>
    ensures { IfOk result (λ bytes. IsReport chains machine.now.tables.now (machine_of machine.now)
        bytes.items) }
{
    if chains {
        report_with_chains(alloc, machine)
    } else {
        report(alloc, machine)
    }
}

// Makes the rounds of a run on a machine at its start and returns the report.
fn run_machine<H: Threads + Wait + Sync, G: TurnGate>(
    rt: &H,
    alloc: Global,
    machine: &mut Machine,
    run: &Run,
    gate: &G,
) -> Result<Vec<u8>, Refusal>
    requires first { machine.old.rounds ≡ 0 }
    ensures report { IfOk result
        (λ bytes. ReportsRun run.now machine.old machine.new bytes.items) }
    ensures text { KeepsText machine.old machine.new }
    ensures memory { IfErr result (λ e. e ≡ refusal.Memory) }
{
    if machine.run(rt, run.rounds, &run.plan, gate).is_err() {
        return Err(Refusal::Memory);
    }
    Ok(report_of(alloc, machine, run.chains)?)
}

// Runs the program of a text with these tables and returns the report.
fn run_program<H: Threads + Wait + Sync, G: TurnGate>(
    rt: &H,
    alloc: Global,
    program: Program,
    tables: &Tables<'_>,
    inputs: &ProcessInputs,
    run: &Run,
    gate: &G,
) -> Result<Vec<u8>, Refusal>
    ensures report { IfOk result
        (λ bytes. IsDueOf run.now program tables.now (inputs_of inputs.now) bytes.items) }
    ensures memory { IfErr result (λ e. e ≡ refusal.Memory) }
{
    reports();
    waits();
    let mut machine = machine_at_start(alloc, program, tables, inputs, run.tick)?;
    run_machine(rt, alloc, &mut machine, run, gate)
}

/// Runs the program of an accepted text, whose processes read these inputs, and returns the report.
///
/// # Errors
///
/// M if memory runs out.
pub fn report_after_run<H: Threads + Wait + Sync, G: TurnGate>(
    rt: &H,
    alloc: Global,
    accepted: &AcceptedText,
    inputs: &ProcessInputs,
    run: &Run,
    gate: &G,
) -> Result<Vec<u8>, Refusal>
    requires accepted { Accepted (view.tree accepted.now.tree) }
    ensures report { IfOk result
        (λ bytes. IsDue run.now (view.tree accepted.now.tree) (inputs_of inputs.now)
        bytes.items) }
    ensures memory { IfErr result (λ e. e ≡ refusal.Memory) }
{
    let CompiledText { program, tables } = compile_accepted(alloc, accepted.key, &accepted.tree)?;
    run_program(rt, alloc, program, &tables, inputs, run, gate)
}
