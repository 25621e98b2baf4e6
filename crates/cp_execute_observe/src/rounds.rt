//! Making rounds, and writing what is reported of them.

ghost use Rattle.std.specs.Prelude.{◌≡◌, ◌<◌, ◌+◌, ◌-◌, ◌^◌, IfErr, IfOk, OnOk};
ghost use Rattle.cp_rounds.specs.InStates.{MakesRounds};
ghost use Rattle.cp_trace.specs.Reporting.{Adds};
ghost use Rattle.cp_trace.specs.Tracers.{ReportsRound, form_of};
ghost use Rattle.cp_execute_observe.specs.Writing.{Extends, IsMemoryOrWrite, Moves, WritesRounds, WritesTrace};
ghost use Rattle.cp_frontend.specs.declared.refusal.Refusal.TheVariants as refusal;

use cp_base_config::plan::Plan;
use cp_base_config::trace::{TraceForm, Tracing};
use cp_frontend::refusal::Refusal;
use cp_frontend::writing::write_result;
use cp_inspect::component_table::ComponentTable;
use cp_model::tree::Tree;
use cp_rounds::gate::TurnGate;
use cp_rounds::machine::Machine;
use cp_trace::topic::Topic;
use cp_trace::tracer::Tracer;
use std::alloc::{AllocError, Global};
use std::io::Write;
use std::sync::Wait;
use std::thread::Threads;

// As many bytes are written at once, or those of one round if they are more.
const MAX_PENDING_BYTES: usize = 65_536;

// The topic of a trace of so many rounds of a machine, whose text has this tree.
fn topic_of<'a, 't>(
    alloc: Global,
    tree: &'t Tree,
    machine: &Machine<'_, 't>,
    only: &'a [&'a str],
    rounds: u32,
) -> Result<Topic<'a, 't>, AllocError> {
    let component_table = ComponentTable::of(alloc, machine.tables())?;
    Ok(Topic {
        tree,
        key: machine.tables().key,
        component_table,
        only,
        done: machine.rounds(),
        rounds,
    })
}

// The tracer that follows a machine.
fn tracer_of<'t>(
    alloc: Global,
    form: TraceForm,
    topic: Topic<'_, 't>,
    machine: &Machine<'_, 't>,
) -> Result<Tracer<'t>, AllocError>
    ensures { IfOk result (λ tracer. form_of tracer ≡ form) }
{
    Tracer::of(alloc, form, topic, machine)
}

// Makes a round, and adds what is reported of it at once.
fn trace_round<'t, H: Threads + Wait + Sync, G: TurnGate>(
    rt: &H,
    machine: &mut Machine<'_, 't>,
    tracer: &mut Tracer<'t>,
    plan: &Plan,
    gate: &G,
    buffer: &mut Vec<u8>,
) -> Result<(), AllocError>
    requires count { machine.old.rounds < 2 ^ 64 - 1 }
    ensures state { OnOk result
        (MakesRounds plan.now.turn.steps 1 machine.old machine.new) }
    ensures count { OnOk result (machine.new.rounds ≡ machine.old.rounds + 1) }
    ensures reported { OnOk result
        (Adds (ReportsRound (form_of tracer.old) machine.new.rounds)
        buffer.old.items buffer.new.items) }
    ensures form { OnOk result (form_of tracer.new ≡ form_of tracer.old) }
{
    machine.round(rt, plan, gate)?;
    let rounds = machine.rounds();
    tracer.follow(rounds, &*machine, buffer)?;
    Ok(())
}

// Writes the bytes if there are many, and then holds none.
fn write_if_long<W: Write>(out: &mut W, buffer: &mut Vec<u8>) -> Result<(), Refusal>
    ensures whole { OnOk result
        (Moves (W.contents out.old) (W.contents out.new) buffer.old.items buffer.new.items) }
    ensures written { Extends (W.contents out.old) (W.contents out.new) }
    ensures write { IfErr result (λ e. e ≡ refusal.Write) }
{
    if buffer.len() < MAX_PENDING_BYTES {
        return Ok(());
    }
    write_result(out, buffer)?;
    buffer.clear();
    Ok(())
}

// Makes rounds, and writes what is reported of them.
fn trace_rounds<'t, H: Threads + Wait + Sync, W: Write, G: TurnGate>(
    rt: &H,
    alloc: Global,
    machine: &mut Machine<'_, 't>,
    tracer: &mut Tracer<'t>,
    rounds: u32,
    plan: &Plan,
    gate: &G,
    out: &mut W,
) -> Result<(), Refusal>
    requires count { machine.old.rounds + rounds < 2 ^ 64 }
    ensures state { OnOk result
        (MakesRounds plan.now.turn.steps rounds machine.old machine.new) }
    ensures reported { OnOk result
        (WritesRounds (form_of tracer.old) machine.old.rounds rounds
        (W.contents out.old) (W.contents out.new)) }
    ensures written { Extends (W.contents out.old) (W.contents out.new) }
    ensures fault { IfErr result IsMemoryOrWrite }
{
    let mut buffer = Vec::new(alloc);
    tracer.begin(&mut buffer)?;
    for _round in 0..rounds {
        trace_round(rt, machine, tracer, plan, gate, &mut buffer)?;
        write_if_long(out, &mut buffer)?;
    }
    tracer.finish(&mut buffer)?;
    write_result(out, &buffer)?;
    Ok(())
}

/// Makes all rounds of a machine at its start, and writes what is reported of each from the first
/// that is reported. Only the processes and monitors with the names in `only` are reported, or all
/// if it is empty. The machine runs the program of a text with this tree.
///
/// # Errors
///
/// M if memory runs out, I2 if a write fails.
pub(crate) fn trace<'t, H: Threads + Wait + Sync, W: Write, G: TurnGate>(
    rt: &H,
    alloc: Global,
    tree: &'t Tree,
    machine: &mut Machine<'_, 't>,
    only: &[&str],
    how: &Tracing,
    gate: &G,
    out: &mut W,
) -> Result<(), Refusal>
    requires first { machine.old.rounds ≡ 0 }
    ensures state { OnOk result
        (MakesRounds how.now.plan.turn.steps how.now.rounds machine.old machine.new) }
    ensures reported { OnOk result
        (WritesTrace how.now (W.contents out.old) (W.contents out.new)) }
    ensures written { Extends (W.contents out.old) (W.contents out.new) }
    ensures fault { IfErr result IsMemoryOrWrite }
{
    let unreported = how.from.saturating_sub(1).min(how.rounds);
    if machine.run(rt, unreported, &how.plan, gate).is_err() {
        return Err(Refusal::Memory);
    }
    let reported = how.rounds - unreported;
    let topic = topic_of(alloc, tree, machine, only, reported)?;
    let mut tracer = tracer_of(alloc, how.form, topic, machine)?;
    trace_rounds(
        rt,
        alloc,
        machine,
        &mut tracer,
        reported,
        &how.plan,
        gate,
        out,
    )
}
