//! Replaying a program: from its inputs and the bytes of an order to its report.

ghost use Rattle.std.specs.Prelude.{◌≡◌, IfErr, IfOk, Ok, length};
ghost use Rattle.cp_check.specs.Checked.{IsProgramOf};
ghost use Rattle.cp_model.specs.Rules.{Accepted};
ghost use Rattle.cp_model.specs.View as view;
ghost use Rattle.cp_base_schedule.specs.Reading.{AllWithin};
ghost use Rattle.cp_base_schedule.specs.Rounds.{rounds_of};
ghost use Rattle.cp_program.specs.View as program_view;
ghost use Rattle.cp_rounds.specs.Views.{KeepsText, processes_of};
ghost use Rattle.cp_frontend.specs.Inputs.{inputs_of};
ghost use Rattle.cp_execute.specs.Executed.{AreTablesOf};
ghost use Rattle.cp_execute.specs.MachineReports.{ReportsReplay};
ghost use Rattle.cp_execute.specs.Replayed.{IsDueAfter, IsReplayed, MakesReplays, RefusesOrder, RefusesOrderFor, judge_order_of};

use crate::running::report_of;
use cp_base_config::run::Replay;
use cp_base_config::turn::Turn;
use cp_base_schedule::orders::Orders;
use cp_base_schedule::reading::read_orders;
use cp_check::checking::{CompiledText, compile_accepted};
use cp_compile_symbols::Tables;
use cp_execute_start::starting::machine_at_start;
use cp_frontend::inputs::ProcessInputs;
use cp_frontend::refusal::Refusal;
use cp_frontend::sources::AcceptedText;
use cp_model::tree::Tree;
use cp_model_machine::law::{reports, waits};
use cp_program::program::Program;
use cp_rounds::machine::Machine;
use std::alloc::{AllocError, Global};

/// Makes the rounds of an order on a machine that has made none.
///
/// # Errors
///
/// `AllocError` if memory runs out.
pub fn replay_rounds(machine: &mut Machine, orders: &Orders, turn: Turn) -> Result<(), AllocError>
    requires first { machine.old.rounds ≡ 0 }
    requires within { AllWithin (processes_of machine.old) (rounds_of orders.now) }
    ensures state { IfOk result (λ _. MakesReplays turn.steps (rounds_of orders.now)
        machine.old machine.new) }
    ensures text { IfOk result (λ _. KeepsText machine.old machine.new) }
{
    for k in 0..orders.len() {
        if let Some(events) = orders.round(k) {
            machine.replay(events, turn)?;
        }
    }
    Ok(())
}

// Reads the order of the text's processes.
fn orders_of(alloc: Global, order: &[u8], processes: usize) -> Result<Orders, Refusal>
    ensures order { IfOk result
        (λ orders. judge_order_of processes order.now ≡ Ok (rounds_of orders)) }
    ensures within { IfOk result (λ orders. AllWithin processes (rounds_of orders)) }
    ensures refused { IfErr result (RefusesOrderFor processes order.now) }
{
    let orders = read_orders(alloc, order, processes)?;
    Ok(orders)
}

// Makes the rounds of an order on a machine at its start and returns the report.
fn replay_machine(
    alloc: Global,
    machine: &mut Machine,
    orders: &Orders,
    replay: &Replay,
) -> Result<Vec<u8>, AllocError>
    requires first { machine.old.rounds ≡ 0 }
    requires within { AllWithin (processes_of machine.old) (rounds_of orders.now) }
    ensures { IfOk result (λ bytes. ReportsReplay replay.now (rounds_of orders.now)
        machine.old machine.new bytes.items) }
{
    replay_rounds(machine, orders, replay.turn)?;
    report_of(alloc, machine, replay.chains)
}

// Replays the program of a text, which has these tables, in a known order and returns the report.
fn replay_program(
    alloc: Global,
    tree: &Tree,
    program: Program,
    tables: &Tables<'_>,
    inputs: &ProcessInputs,
    orders: &Orders,
    replay: &Replay,
) -> Result<Vec<u8>, AllocError>
    requires program { IsProgramOf (view.tree tree.now) program }
    requires tables { AreTablesOf tree.now tables.now }
    requires within { AllWithin (length (program_view.program program).processes)
        (rounds_of orders.now) }
    ensures { IfOk result (λ bytes. IsDueAfter replay.now (view.tree tree.now)
        (inputs_of inputs.now) (rounds_of orders.now) bytes.items) }
{
    reports();
    waits();
    let mut machine = machine_at_start(alloc, program, tables, inputs, replay.tick)?;
    replay_machine(alloc, &mut machine, orders, replay)
}

// Replays the program of a text, which has these tables, in the order of these bytes and returns
// the report.
fn replay_text(
    alloc: Global,
    tree: &Tree,
    program: Program,
    tables: &Tables<'_>,
    inputs: &ProcessInputs,
    order: &[u8],
    replay: &Replay,
) -> Result<Vec<u8>, Refusal>
    requires program { IsProgramOf (view.tree tree.now) program }
    requires tables { AreTablesOf tree.now tables.now }
    ensures report { IfOk result
        (λ bytes. IsReplayed replay.now (view.tree tree.now) (inputs_of inputs.now)
        order.now bytes.items) }
    ensures refused { IfErr result (RefusesOrder (view.tree tree.now) order.now) }
{
    let orders = orders_of(alloc, order, program.processes())?;
    let bytes = replay_program(alloc, tree, program, tables, inputs, &orders, replay)?;
    Ok(bytes)
}

/// Replays the program of an accepted text, whose processes read these inputs, and returns the
/// report.
///
/// # Errors
///
/// O1 if the bytes aren't an order of its processes, M if memory runs out.
pub fn report_after_replay(
    alloc: Global,
    accepted: &AcceptedText,
    inputs: &ProcessInputs,
    order: &[u8],
    replay: &Replay,
) -> Result<Vec<u8>, Refusal>
    requires accepted { Accepted (view.tree accepted.now.tree) }
    ensures report { IfOk result
        (λ bytes. IsReplayed replay.now (view.tree accepted.now.tree) (inputs_of inputs.now)
        order.now bytes.items) }
    ensures refused { IfErr result (RefusesOrder (view.tree accepted.now.tree) order.now) }
{
    let CompiledText { program, tables } = compile_accepted(alloc, accepted.key, &accepted.tree)?;
    replay_text(
        alloc,
        &accepted.tree,
        program,
        &tables,
        inputs,
        order,
        replay,
    )
}
