//! The jobs: read and check a text, run it on an input if it is to run, and write the result.

ghost use Rattle.std.specs.Prelude.{◌≡◌, IfErr, IfSome, OnOk};
ghost use Rattle.std.specs.Io.KnownBytes.{Keeps};
ghost use Rattle.cp_frontend.specs.KnownRefusals.{IsBeforeWriting, IsFaultOfAccepted, IsFaultOrOfInput, RefusesRun, RefusesText};
ghost use Rattle.cp_execute.specs.Executed.{Accepts, Begins, BeginsAcceptance, BeginsReport, Does, Refuses, RefusesAccepted, Reports, TakesInputFor};
ghost use Rattle.cp_frontend.specs.Takings.{TakesInput, TakesText};
ghost use Rattle.cp_frontend.specs.declared.refusal.Refusal.TheVariants as refusal;

use crate::running::report_after_run;
use cp_base_config::run::Run;
use cp_frontend::inputs::ProcessInputs;
use cp_frontend::refusal::Refusal;
use cp_frontend::sources::{read_accepted, read_input};
use cp_frontend::writing::write_result;
use cp_rounds::gate::TurnGate;
use std::alloc::Global;
use std::io::{Read, Write};
use std::sync::Wait;
use std::thread::Threads;

/// What to do with a text.
#[derive(Clone, Copy)]
pub enum Job {
    /// Writes `accepted`.
    Check,
    /// Runs the text and writes the report.
    Run(Run),
}

// Checks the text of a reader, and writes `accepted` and a line feed.
fn check_text<R: Read, W: Write>(alloc: Global, text: &mut R, out: &mut W) -> Result<(), Refusal>
    ensures accepts { OnOk result
        (Accepts (R.remaining text.old) (W.contents out.old) (W.contents out.new)) }
    ensures unwritten { IfErr result
        (λ e. IsBeforeWriting e → Keeps (W.contents out.old) (W.contents out.new)) }
    ensures refused { IfErr result
        (λ e. IsBeforeWriting e → IfSome (R.remaining text.old) (λ xs. RefusesText xs e)) }
    ensures beginning { IfErr result
        (λ e. e ≡ refusal.Write
        → BeginsAcceptance (R.remaining text.old) (W.contents out.old) (W.contents out.new)) }
    ensures faults { IfErr result (IsFaultOfAccepted (R.remaining text.old)) }
    ensures taken { TakesText result (R.remaining text.old) (R.remaining text.new) }
{
    read_accepted(alloc, text)?;
    write_result(out, b"accepted\n")
}

// Runs the text of one reader on the input of another, and writes the report.
fn run_text<H: Threads + Wait + Sync, R: Read, S: Read, W: Write, G: TurnGate>(
    rt: &H,
    alloc: Global,
    text: &mut R,
    input: &mut S,
    run: &Run,
    gate: &G,
    out: &mut W,
) -> Result<(), Refusal>
    ensures reports { OnOk result
        (Reports run.now (R.remaining text.old) (S.remaining input.old) (W.contents out.old)
        (W.contents out.new)) }
    ensures unwritten { IfErr result
        (λ e. IsBeforeWriting e → Keeps (W.contents out.old) (W.contents out.new)) }
    ensures refused { IfErr result
        (λ e. IsBeforeWriting e
        → IfSome (R.remaining text.old) (λ xs. RefusesRun xs (S.remaining input.old) e)) }
    ensures beginning { IfErr result
        (λ e. e ≡ refusal.Write
        → BeginsReport run.now (R.remaining text.old) (S.remaining input.old) (W.contents out.old)
        (W.contents out.new)) }
    ensures faults { IfErr result
        (IsFaultOrOfInput (R.remaining text.old) (S.remaining input.old)) }
    ensures text { TakesText result (R.remaining text.old) (R.remaining text.new) }
    ensures input { TakesInput result (S.remaining input.old) (S.remaining input.new) }
{
    let accepted = read_accepted(alloc, text)?;
    let bytes = read_input(alloc, input)?;
    let inputs = ProcessInputs::Joined(bytes);
    let report = report_after_run(rt, alloc, &accepted, &inputs, run, gate)?;
    write_result(out, &report)
}

/// Does a job with the text of a reader, and writes `accepted` and a line feed, or the report.
///
/// # Errors
///
/// For the text I1, S, Y or C, then for the input of a run I1, I4 or I3. Also M, and I2 if a write
/// fails. After I2 a prefix of what was due has been written, and after any other refusal nothing.
/// If the text is accepted and the input isn't refused with I4 or I3, only M, I1 or I2 is possible.
/// Each reader is read to its end or through byte 1,048,577, and no further. A check reads no
/// input, and neither does a run whose text is refused.
pub fn execute<H: Threads + Wait + Sync, R: Read, S: Read, W: Write, G: TurnGate>(
    rt: &H,
    alloc: Global,
    text: &mut R,
    input: &mut S,
    job: &Job,
    gate: &G,
    out: &mut W,
) -> Result<(), Refusal>
    ensures done { OnOk result
        (Does job.now (R.remaining text.old) (S.remaining input.old) (W.contents out.old)
        (W.contents out.new)) }
    ensures unwritten { IfErr result
        (λ e. IsBeforeWriting e → Keeps (W.contents out.old) (W.contents out.new)) }
    ensures refused { IfErr result
        (λ e. IsBeforeWriting e
        → Refuses job.now (R.remaining text.old) (S.remaining input.old) e) }
    ensures beginning { IfErr result
        (λ e. e ≡ refusal.Write
        → Begins job.now (R.remaining text.old) (S.remaining input.old) (W.contents out.old)
        (W.contents out.new)) }
    ensures faults { IfErr result
        (RefusesAccepted job.now (R.remaining text.old) (S.remaining input.old)) }
    ensures text { TakesText result (R.remaining text.old) (R.remaining text.new) }
    ensures input { TakesInputFor job.now result (S.remaining input.old) (S.remaining input.new) }
{
    match job {
        Job::Check => check_text(alloc, text, out),
        Job::Run(run) => run_text(rt, alloc, text, input, run, gate, out),
    }
}
