//! Traces: read and check a text, run it on an input, and write what became of its processes and
//! monitors, round by round.

ghost use Rattle.std.specs.Prelude.{IfErr, IfOk, IfSome, OnOk};
ghost use Rattle.std.specs.Io.KnownBytes.{Keeps};
ghost use Rattle.cp_frontend.specs.KnownRefusals.{IsBeforeWriting, IsFaultOrOfInput, RefusesRun};
ghost use Rattle.cp_frontend.specs.Takings.{TakesInput, TakesText};
ghost use Rattle.cp_execute_observe.specs.Writing.{Extends, IsMemoryOrWrite, WritesTrace};
ghost use Rattle.cp_execute_observe.specs.Traces.{Traces};

use crate::tracing::machine_after_trace;
use cp_base_config::trace::Tracing;
use cp_frontend::inputs::ProcessInputs;
use cp_frontend::refusal::Refusal;
use cp_frontend::sources::{read_accepted, read_input};
use cp_rounds::finished_machine::FinishedMachine;
use cp_rounds::gate::TurnGate;
use std::alloc::Global;
use std::io::{Read, Write};
use std::sync::Wait;
use std::thread::Threads;

/// Runs the text of one reader on the input of another, and writes in the form of the trace what
/// became of its processes and monitors, from the first round that is reported. Returns the machine
/// after the last round. Only the processes and monitors with the names in `only` are reported, or
/// all if it is empty. The memory that this takes doesn't grow with the rounds.
///
/// # Errors
///
/// For the text I1, S, Y or C, then for the input I1, I4 or I3. Also M, and I2 if a write fails.
/// After M or I2 the beginning may have been written, and after any other refusal
/// nothing. Each reader is read to its end or through byte 1,048,577, and no further. The input
/// isn't read if the text is refused.
pub fn execute_trace<H: Threads + Wait + Sync, R: Read, S: Read, W: Write, G: TurnGate>(
    rt: &H,
    alloc: Global,
    text: &mut R,
    input: &mut S,
    only: &[&str],
    how: &Tracing,
    gate: &G,
    out: &mut W,
) -> Result<FinishedMachine, Refusal>
    ensures done { IfOk result
        (λ machine. Traces how.now machine (R.remaining text.old) (S.remaining input.old)) }
    ensures reported { OnOk result
        (WritesTrace how.now (W.contents out.old) (W.contents out.new)) }
    ensures written { Extends (W.contents out.old) (W.contents out.new) }
    ensures unwritten { IfErr result
        (λ e. (IsMemoryOrWrite e → ⊥) → Keeps (W.contents out.old) (W.contents out.new)) }
    ensures refused { IfErr result
        (λ e. IsBeforeWriting e
        → IfSome (R.remaining text.old) (λ xs. RefusesRun xs (S.remaining input.old) e)) }
    ensures faults { IfErr result
        (IsFaultOrOfInput (R.remaining text.old) (S.remaining input.old)) }
    ensures text { TakesText result (R.remaining text.old) (R.remaining text.new) }
    ensures input { TakesInput result (S.remaining input.old) (S.remaining input.new) }
{
    let accepted = read_accepted(alloc, text)?;
    let bytes = read_input(alloc, input)?;
    let inputs = ProcessInputs::Joined(bytes);
    let machine = machine_after_trace(rt, alloc, &accepted, &inputs, only, how, gate, out)?;
    Ok(machine)
}
