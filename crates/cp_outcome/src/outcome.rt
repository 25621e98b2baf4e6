//! The outcome of a run: the verdict, and then the reasons for it.

ghost use Rattle.std.specs.Prelude.{◌≡◌, ◌++◌, OnOk, IfOk};
ghost use Rattle.cp_outcome.specs.Outcomes.{verdict_line, verdict_word};

use crate::verdict::Verdict;
use cp_base_digits::decimal::push_natural;
use cp_rounds::machine::Machine;
use std::alloc::{AllocError, Global};

/// The word for a verdict.
pub fn word_of(verdict: Verdict) -> &'static [u8]
    ensures { result.now ≡ verdict_word verdict }
{
    match verdict {
        Verdict::Ended => b"ended",
        Verdict::Stuck => b"stuck",
        Verdict::Fault => b"fault",
        Verdict::Running => b"running",
    }
}

fn push_verdict(out: &mut Vec<u8>, verdict: Verdict, rounds: u64) -> Result<(), AllocError>
    ensures { OnOk result (out.new.items ≡ out.old.items ++ verdict_line verdict rounds) }
{
    out.extend_from_slice(word_of(verdict))?;
    out.extend_from_slice(b" after round ")?;
    push_natural(out, rounds)?;
    out.extend_from_slice(b"\n")
}

/// The outcome of a machine, as bytes: the verdict on it, and then the reasons, which say
/// why each process that hasn't ended is where it is.
///
/// # Errors
///
/// `AllocError` if memory runs out.
pub fn outcome(
    alloc: Global,
    machine: &Machine,
    verdict: Verdict,
    reasons: &[u8],
) -> Result<Vec<u8>, AllocError>
    ensures { IfOk result
        (λ bytes. bytes.items ≡ verdict_line verdict machine.now.rounds ++ reasons.now) }
{
    let mut bytes = Vec::new(alloc);
    push_verdict(&mut bytes, verdict, machine.rounds())?;
    bytes.extend_from_slice(reasons)?;
    Ok(bytes)
}
