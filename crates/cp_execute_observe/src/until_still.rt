//! Running a program until nothing can move: from its inputs to the outcome.

ghost use Rattle.std.specs.Prelude.{◌≡◌, ℕ, List, IfErr, IfOk};
ghost use Rattle.cp_model.specs.Rules.{Accepted};
ghost use Rattle.cp_model.specs.Syntax as s;
ghost use Rattle.cp_model.specs.View as view;
ghost use Rattle.cp_frontend.specs.Inputs.{inputs_of};
ghost use Rattle.cp_execute_start.specs.Starts.{IsAtStart, setup_of};
ghost use Rattle.cp_execute_observe.specs.Outcomes.{IsOutcome};
ghost use Rattle.cp_frontend.specs.declared.refusal.Refusal.TheVariants as refusal;

use crate::form::reported;
use crate::looping::found_loop;
use cp_base_config::outcome::{OutcomeForm, UntilStill};
use cp_check::checking::{CompiledText, compile_accepted};
use cp_execute_start::starting::machine_at_start;
use cp_frontend::inputs::ProcessInputs;
use cp_frontend::refusal::Refusal;
use cp_frontend::sources::AcceptedText;
use cp_outcome::verdict::{Verdict, verdict_on};
use cp_rounds::gate::TurnGate;
use cp_rounds::machine::Machine;
use cp_rounds_still::until_still::run_until_still;
use std::alloc::Global;
use std::sync::Wait;
use std::thread::Threads;

/// The verdict on a run, and the text that reports it.
#[derive(Drop)]
pub struct Outcome {
    pub verdict: Verdict,
    pub bytes: Vec<u8>,
}

// Runs a machine at its start until nothing can move, and returns the outcome in a form, with the
// variables that have names in `show`.
fn outcome_of<'t, H: Threads + Wait + Sync, G: TurnGate>(
    rt: &H,
    alloc: Global,
    text: &'t AcceptedText,
    mut machine: Machine<'_, 't>,
    how: &UntilStill,
    servers: &[u32],
    form: OutcomeForm<&[u32]>,
    show: &[&str],
    gate: &G,
) -> Result<Outcome, Refusal>
    requires first { machine.rounds ≡ 0 }
    ensures outcome { IfOk result (λ outcome. (t : s.Tree) (inputs : ℕ → List ℕ)
        → IsAtStart (setup_of t inputs how.now.tick.rounds) machine.entry
        → IsOutcome how.now servers.now form.entry t inputs outcome.verdict outcome.bytes.items) }
    ensures memory { IfErr result (λ e. e ≡ refusal.Memory) }
{
    let Ok(_rounds) = run_until_still(rt, &mut machine, how.limit, &how.plan, gate) else {
        return Err(Refusal::Memory);
    };
    let verdict = verdict_on(&machine, servers);
    let found = found_loop(rt, alloc, &mut machine, how, verdict, form, gate)?;
    let turn = how.plan.turn;
    let bytes = reported(
        alloc,
        text,
        &machine,
        servers,
        verdict,
        turn,
        form,
        found.as_ref(),
        show,
    )?;
    Ok(Outcome { verdict, bytes })
}

/// Runs the program of an accepted text, whose processes read these inputs, until nothing can move.
/// Returns the outcome in a form, with the variables that have names in `show`. The servers, by
/// their numbers, may wait forever.
///
/// # Errors
///
/// M if memory runs out.
pub fn outcome_after_run<H: Threads + Wait + Sync, G: TurnGate>(
    rt: &H,
    alloc: Global,
    text: &AcceptedText,
    inputs: &ProcessInputs,
    how: &UntilStill,
    servers: &[u32],
    form: OutcomeForm<&[u32]>,
    show: &[&str],
    gate: &G,
) -> Result<Outcome, Refusal>
    requires accepted { Accepted (view.tree text.now.tree) }
    ensures outcome { IfOk result (λ outcome. IsOutcome how.now servers.now form.entry
        (view.tree text.now.tree) (inputs_of inputs.now) outcome.verdict outcome.bytes.items) }
    ensures memory { IfErr result (λ e. e ≡ refusal.Memory) }
{
    let compiled = compile_accepted(alloc, text.key, &text.tree)?;
    let CompiledText { program, tables } = compiled;
    let machine = machine_at_start(alloc, program, &tables, inputs, how.tick)?;
    outcome_of(rt, alloc, text, machine, how, servers, form, show, gate)
}
