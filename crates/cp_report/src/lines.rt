//! Single lines, and the text at the start of other lines.

ghost use Rattle.std.specs.Prelude.{◌≡◌, ◌++◌, OnOk};
ghost use Rattle.cp_model_machine.specs.Reports.{transcript_line};
ghost use Rattle.cp_report.specs.Lines.{rounds_line, title};

use cp_base_digits::decimal::push_natural;
use cp_inspect::text::push_all_escaped;
use std::alloc::AllocError;

/// Adds the first line, with the number of rounds made.
pub(crate) fn push_rounds(out: &mut Vec<u8>, rounds: u64) -> Result<(), AllocError>
    ensures { OnOk result (out.new.items ≡ out.old.items ++ rounds_line rounds) }
{
    out.extend_from_slice(b"rounds ")?;
    push_natural(out, rounds)?;
    out.extend_from_slice(b"\n")
}

/// Adds the number and the name of a process, which come before its status.
pub(crate) fn push_title(out: &mut Vec<u8>, number: u32, name: &[u8]) -> Result<(), AllocError>
    ensures { OnOk result (out.new.items ≡ out.old.items ++ title number name.now) }
{
    out.extend_from_slice(b"process ")?;
    push_natural(out, u64::from(number))?;
    out.extend_from_slice(b" ")?;
    out.extend_from_slice(name)?;
    out.extend_from_slice(b" ")
}

/// Adds the line with the output of a process, which is given in two parts.
pub(crate) fn push_transcript_line(
    out: &mut Vec<u8>,
    first: &[u8],
    last: &[u8],
) -> Result<(), AllocError>
    ensures { OnOk result (out.new.items ≡ out.old.items ++
        transcript_line (first.now ++ last.now)) }
{
    out.extend_from_slice(b"out '")?;
    push_all_escaped(out, first)?;
    push_all_escaped(out, last)?;
    out.extend_from_slice(b"'")?;
    out.extend_from_slice(b"\n")
}
