//! Replays: read and check a text, replay it on an input in the order of an order text, and write
//! the report.

ghost use Rattle.std.specs.Prelude.{◌≡◌, IfErr, IfSome, OnOk};
ghost use Rattle.std.specs.Io.KnownBytes.{Keeps};
ghost use Rattle.cp_execute.specs.Replayed.{BeginsReplay, RefusesNoAccepted, RefusesReplay, Replays};
ghost use Rattle.cp_frontend.specs.KnownRefusals.{IsBeforeWriting};
ghost use Rattle.cp_frontend.specs.Takings.{TakesInput, TakesOrder, TakesText};
ghost use Rattle.cp_frontend.specs.declared.refusal.Refusal.TheVariants as refusal;

use crate::replaying::report_after_replay;
use cp_base_config::run::Replay;
use cp_frontend::inputs::ProcessInputs;
use cp_frontend::reading::read_text;
use cp_frontend::refusal::Refusal;
use cp_frontend::sources::{read_accepted, read_input};
use cp_frontend::writing::write_result;
use std::alloc::Global;
use std::io::{Read, Write};

/// Replays the text of one reader on the input of another, and writes the report. Each line of the
/// order text is a round: the events that it names, in its order. No other thread takes part.
///
/// # Errors
///
/// For the text I1, S, Y or C, then for the input I1, I4 or I3, then for the order I1 or O1. Also
/// M, and I2 if a write fails. After I2 a prefix of the report has been written, and after any
/// other refusal nothing. Each reader is read to its end or through byte 1,048,577, and no further.
/// A reader isn't read if one before it is refused.
pub fn execute_order<R: Read, S: Read, O: Read, W: Write>(
    alloc: Global,
    text: &mut R,
    input: &mut S,
    order: &mut O,
    replay: &Replay,
    out: &mut W,
) -> Result<(), Refusal>
    ensures done { OnOk result
        (Replays replay.now (R.remaining text.old) (S.remaining input.old)
        (O.remaining order.old) (W.contents out.old) (W.contents out.new)) }
    ensures unwritten { IfErr result
        (λ e. IsBeforeWriting e → Keeps (W.contents out.old) (W.contents out.new)) }
    ensures refused { IfErr result
        (λ e. IsBeforeWriting e → IfSome (R.remaining text.old)
        (λ xs. RefusesReplay xs (S.remaining input.old) (O.remaining order.old) e)) }
    ensures beginning { IfErr result
        (λ e. e ≡ refusal.Write
        → BeginsReplay replay.now (R.remaining text.old) (S.remaining input.old)
        (O.remaining order.old) (W.contents out.old) (W.contents out.new)) }
    ensures accepted { IfErr result (RefusesNoAccepted (R.remaining text.old)) }
    ensures text { TakesText result (R.remaining text.old) (R.remaining text.new) }
    ensures input { TakesInput result (S.remaining input.old) (S.remaining input.new) }
    ensures order { TakesOrder result (O.remaining order.old) (O.remaining order.new) }
{
    let accepted = read_accepted(alloc, text)?;
    let bytes = read_input(alloc, input)?;
    let inputs = ProcessInputs::Joined(bytes);
    let events = read_text(alloc, order)?;
    let report = report_after_replay(alloc, &accepted, &inputs, &events, replay)?;
    write_result(out, &report)
}
