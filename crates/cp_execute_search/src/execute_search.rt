//! Searches: read and check a text, search all schedules of it with an input, and write what was
//! found.

ghost use Rattle.std.specs.Prelude.{◌≡◌, IfErr, IfOk, IfSome};
ghost use Rattle.std.specs.Io.KnownBytes.{Keeps};
ghost use Rattle.cp_frontend.specs.KnownRefusals.{IsBeforeWriting, IsFaultOrOfInput, RefusesRun};
ghost use Rattle.cp_frontend.specs.Takings.{TakesInput, TakesText};
ghost use Rattle.cp_frontend.specs.declared.refusal.Refusal.TheVariants as refusal;
ghost use Rattle.cp_execute_search.specs.Searches.{BeginsSearch, ReportsSearch};

use crate::searching::{Reported, search_text};
use crate::verdict::SearchVerdict;
use cp_base_config::search::Searching;
use cp_frontend::inputs::ProcessInputs;
use cp_frontend::refusal::Refusal;
use cp_frontend::sources::{read_accepted, read_input};
use cp_frontend::writing::write_result;
use cp_outcome_schedule::findings::Findings;
use cp_search::search::Watch;
use std::alloc::Global;
use std::io::{Read, Write};
use std::thread::Threads;

/// What a search has found, and the verdict on it.
#[derive(Drop)]
pub struct Searched {
    pub verdict: SearchVerdict,
    pub findings: Findings,
}

/// Searches all schedules of the text of one reader with the input of another, by so many threads,
/// writes what was found in its form, and returns it. Each schedule that is shown was replayed before. The servers, by
/// their numbers, may wait forever.
///
/// # Errors
///
/// For the text I1, S, Y or C, then for the input I1, I4 or I3. Also M, and I2 if a write fails.
/// After I2 a prefix of the result has been written, and after any other refusal nothing. Each
/// reader is read to its end or through byte 1,048,577, and no further. The input isn't read if the
/// text is refused.
pub fn execute_search<H: Threads + Sync, R: Read, S: Read, W: Write, V: Watch>(
    rt: &H,
    alloc: Global,
    text: &mut R,
    input: &mut S,
    servers: &[u32],
    how: Searching,
    workers: u32,
    watch: &V,
    out: &mut W,
) -> Result<Searched, Refusal>
    ensures done { IfOk result (λ searched. ReportsSearch servers.now how.form searched.verdict
        searched.findings (R.remaining text.old) (S.remaining input.old) (W.contents out.old)
        (W.contents out.new)) }
    ensures unwritten { IfErr result
        (λ e. IsBeforeWriting e → Keeps (W.contents out.old) (W.contents out.new)) }
    ensures refused { IfErr result
        (λ e. IsBeforeWriting e
        → IfSome (R.remaining text.old) (λ xs. RefusesRun xs (S.remaining input.old) e)) }
    ensures beginning { IfErr result
        (λ e. e ≡ refusal.Write
        → BeginsSearch servers.now how.form (R.remaining text.old) (S.remaining input.old)
        (W.contents out.old) (W.contents out.new)) }
    ensures faults { IfErr result
        (IsFaultOrOfInput (R.remaining text.old) (S.remaining input.old)) }
    ensures text { TakesText result (R.remaining text.old) (R.remaining text.new) }
    ensures input { TakesInput result (S.remaining input.old) (S.remaining input.new) }
{
    let accepted = read_accepted(alloc, text)?;
    let bytes = read_input(alloc, input)?;
    let inputs = ProcessInputs::Joined(bytes);
    let reported = search_text(rt, alloc, &accepted, &inputs, servers, how, workers, watch)?;
    write_result(out, &reported.page)?;
    let Reported {
        verdict,
        findings,
        page: _,
    } = reported;
    Ok(Searched { verdict, findings })
}
