//! Outcomes: read and check a text, run it on an input until nothing can move, and write what
//! became of it.

ghost use Rattle.std.specs.Prelude.{◌≡◌, IfErr, IfOk, IfSome};
ghost use Rattle.std.specs.Io.KnownBytes.{Keeps};
ghost use Rattle.cp_frontend.specs.KnownRefusals.{IsBeforeWriting, IsFaultOrOfInput, RefusesRun};
ghost use Rattle.cp_execute_observe.specs.Outcomes.{BeginsOutcome, ReportsOutcome};
ghost use Rattle.cp_frontend.specs.Takings.{TakesInput, TakesText};
ghost use Rattle.cp_frontend.specs.declared.refusal.Refusal.TheVariants as refusal;

use crate::until_still::outcome_after_run;
use cp_base_config::outcome::{OutcomeForm, UntilStill};
use cp_frontend::inputs::ProcessInputs;
use cp_frontend::refusal::Refusal;
use cp_frontend::sources::{read_accepted, read_input};
use cp_frontend::writing::write_result;
use cp_outcome::verdict::Verdict;
use cp_rounds::gate::TurnGate;
use std::alloc::Global;
use std::io::{Read, Write};
use std::sync::Wait;
use std::thread::Threads;

/// Runs the text of one reader on the input of another until nothing can move, writes the outcome
/// in its form, with the variables that have names in `show`, and returns the verdict. The servers,
/// by their numbers, may wait forever.
///
/// # Errors
///
/// For the text I1, S, Y or C, then for the input I1, I4 or I3. Also M, and I2 if a write fails.
/// After I2 a prefix of the outcome has been written, and after any other refusal nothing. Each
/// reader is read to its end or through byte 1,048,577, and no further. The input isn't read if the
/// text is refused.
pub fn execute_outcome<H: Threads + Wait + Sync, R: Read, S: Read, W: Write, G: TurnGate>(
    rt: &H,
    alloc: Global,
    text: &mut R,
    input: &mut S,
    how: &UntilStill,
    servers: &[u32],
    form: OutcomeForm<&[u32]>,
    show: &[&str],
    gate: &G,
    out: &mut W,
) -> Result<Verdict, Refusal>
    ensures done { IfOk result
        (λ verdict. ReportsOutcome how.now servers.now form.entry verdict (R.remaining text.old)
        (S.remaining input.old) (W.contents out.old) (W.contents out.new)) }
    ensures unwritten { IfErr result
        (λ e. IsBeforeWriting e → Keeps (W.contents out.old) (W.contents out.new)) }
    ensures refused { IfErr result
        (λ e. IsBeforeWriting e
        → IfSome (R.remaining text.old) (λ xs. RefusesRun xs (S.remaining input.old) e)) }
    ensures beginning { IfErr result
        (λ e. e ≡ refusal.Write
        → BeginsOutcome how.now servers.now form.entry (R.remaining text.old)
        (S.remaining input.old) (W.contents out.old) (W.contents out.new)) }
    ensures faults { IfErr result
        (IsFaultOrOfInput (R.remaining text.old) (S.remaining input.old)) }
    ensures text { TakesText result (R.remaining text.old) (R.remaining text.new) }
    ensures input { TakesInput result (S.remaining input.old) (S.remaining input.new) }
{
    let accepted = read_accepted(alloc, text)?;
    let bytes = read_input(alloc, input)?;
    let inputs = ProcessInputs::Joined(bytes);
    let outcome = outcome_after_run(
        rt, alloc, &accepted, &inputs, how, servers, form, show, gate,
    )?;
    write_result(out, &outcome.bytes)?;
    Ok(outcome.verdict)
}
