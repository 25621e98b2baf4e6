//! Certificates: each schedule that was found is replayed from the start before it is shown.

ghost use Rattle.std.specs.Prelude.{◌≡◌, IfOk, length, true};
ghost use Rattle.cp_model.specs.Rules.{Accepted};
ghost use Rattle.cp_model.specs.View as view;
ghost use Rattle.cp_base_schedule.specs.Reading.{AllWithin};
ghost use Rattle.cp_base_schedule.specs.Rounds.{rounds_of};
ghost use Rattle.cp_check.specs.Checked.{IsProgramOf};
ghost use Rattle.cp_frontend.specs.Inputs.{inputs_of};
ghost use Rattle.cp_outcome_schedule.specs.declared.findings.Finding.TheVariants as variants;
ghost use Rattle.cp_outcome.specs.declared.verdict.Verdict.TheVariants as verdicts;
ghost use Rattle.cp_rounds.specs.Views.{processes_of};
ghost use Rattle.cp_execute_search.specs.Certificates.{IsCertified, LeadsIfSome, ReachesIfSome, ShowsKind};

use crate::kind::Kind;
use cp_base_config::tick::Tick;
use cp_base_config::turn::Turn;
use cp_base_schedule::orders::Orders;
use cp_base_schedule::reading::{OrderError, read_orders};
use cp_check::checking::{CompiledText, compile_accepted};
use cp_execute::replaying::replay_rounds;
use cp_execute_observe::snapshot::snapshot_of;
use cp_execute_start::starting::machine_at_start;
use cp_frontend::inputs::ProcessInputs;
use cp_frontend::sources::AcceptedText;
use cp_outcome::verdict::{Verdict, none_has_faulted, verdict_on};
use cp_outcome_reasons::snapshot::StatusSnapshot;
use cp_outcome_schedule::findings::{Finding, Found};
use cp_rounds::machine::Machine;
use cp_search_schedule::schedule::Schedule;
use std::alloc::{AllocError, Global};

// Schedules have turns of one step.
const ONE_STEP: Turn = Turn { steps: 1 };

// A program that is searched doesn't use the clock. It ticks as if no option says how often.
const EACH_ROUND: Tick = Tick { rounds: 1 };

fn is_stuck(verdict: Verdict) -> bool
    ensures { result ≡ true → verdict ≡ verdicts.Stuck }
{
    matches!(verdict, Verdict::Stuck)
}

// Whether a machine is in a state of a kind.
fn is_of_kind(machine: &Machine, servers: &[u32], kind: Kind) -> bool
    ensures { result ≡ true → ShowsKind kind servers.now machine.now }
{
    match kind {
        Kind::Stuck => is_stuck(verdict_on(machine, servers)),
        Kind::Fault => !none_has_faulted(machine),
    }
}

// Makes the rounds of an order on a machine at its start. Returns where all are then, if the state
// is of the kind.
fn replay_machine(
    alloc: Global,
    machine: &mut Machine,
    orders: &Orders,
    servers: &[u32],
    kind: Kind,
) -> Result<Option<StatusSnapshot>, AllocError>
    requires first { machine.old.rounds ≡ 0 }
    requires within { AllWithin (processes_of machine.old) (rounds_of orders.now) }
    ensures { IfOk result (ReachesIfSome kind servers.now (rounds_of orders.now) machine.old) }
{
    replay_rounds(machine, orders, ONE_STEP)?;
    if !is_of_kind(machine, servers, kind) {
        return Ok(None);
    }
    Ok(Some(snapshot_of(alloc, machine)?))
}

// Replays the program of a text in the order of these bytes. Returns where all are then, if the
// bytes are an order and the state is of the kind.
fn replay_text(
    alloc: Global,
    text: &AcceptedText,
    compiled: CompiledText<'_>,
    inputs: &ProcessInputs,
    order: &[u8],
    servers: &[u32],
    kind: Kind,
) -> Result<Option<StatusSnapshot>, AllocError>
    requires program { IsProgramOf (view.tree text.now.tree) compiled.program }
    ensures { IfOk result
        (LeadsIfSome kind servers.now (view.tree text.now.tree) (inputs_of inputs.now)
        order.now) }
{
    let CompiledText { program, tables } = compiled;
    let orders = match read_orders(alloc, order, program.processes()) {
        Ok(orders) => orders,
        Err(OrderError::Memory) => return Err(AllocError),
        Err(OrderError::Line { .. }) => return Ok(None),
    };
    let mut machine = machine_at_start(alloc, program, &tables, inputs, EACH_ROUND)?;
    replay_machine(alloc, &mut machine, &orders, servers, kind)
}

/// Replays the program of an accepted text by a schedule. It is found if it leads to a state of the
/// kind, and a defect if not. The servers, by their numbers, may wait forever.
///
/// # Errors
///
/// `AllocError` if memory runs out.
pub(crate) fn certify(
    alloc: Global,
    text: &AcceptedText,
    inputs: &ProcessInputs,
    schedule: Schedule,
    servers: &[u32],
    kind: Kind,
) -> Result<Finding, AllocError>
    requires accepted { Accepted (view.tree text.now.tree) }
    ensures certified { IfOk result
        (IsCertified kind servers.now (view.tree text.now.tree) (inputs_of inputs.now)) }
    ensures found { IfOk result (λ found. found ≡ variants.None → ⊥) }
{
    let compiled = compile_accepted(alloc, text.key, &text.tree)?;
    match replay_text(
        alloc,
        text,
        compiled,
        inputs,
        &schedule.order,
        servers,
        kind,
    )? {
        Some(snapshot) => Ok(Finding::Schedule(Found { schedule, snapshot })),
        None => Ok(Finding::Defect),
    }
}
