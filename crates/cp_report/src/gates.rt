//! The line of a monitor's gate.

ghost use Rattle.std.specs.Prelude.{◌≡◌, ◌++◌, OnOk, flat_map};
ghost use Rattle.cp_model.specs.Report.{askers_text, gate_text};
ghost use Rattle.cp_private.specs.States as states;
ghost use Rattle.cp_report.specs.Lines.{gate_line_of, number_text};

use cp_base_digits::decimal::push_natural;
use cp_private::kernel_view::Holder;
use std::alloc::AllocError;

fn push_holder(out: &mut Vec<u8>, holder: Holder) -> Result<(), AllocError>
    ensures { OnOk result (out.new.items ≡ out.old.items ++ gate_text (states.holder holder)) }
{
    match holder {
        Holder::Unset => out.extend_from_slice(b"unset"),
        Holder::Free => out.extend_from_slice(b"free"),
        Holder::Process(number) => {
            out.extend_from_slice(b"held ")?;
            push_natural(out, u64::from(number))
        }
    }
}

/// Adds a space and the number of a process.
pub(crate) fn push_number(out: &mut Vec<u8>, number: u32) -> Result<(), AllocError>
    ensures { OnOk result (out.new.items ≡ out.old.items ++ number_text number) }
{
    out.extend_from_slice(b" ")?;
    push_natural(out, u64::from(number))
}

fn push_numbers(out: &mut Vec<u8>, numbers: &[u32]) -> Result<(), AllocError>
    ensures { OnOk result (out.new.items ≡ out.old.items ++ flat_map number_text numbers.now) }
{
    for number in numbers {
        push_number(out, *number)?;
    }
    Ok(())
}

fn push_askers(out: &mut Vec<u8>, askers: &[u32]) -> Result<(), AllocError>
    ensures { OnOk result (out.new.items ≡ out.old.items ++ askers_text askers.now) }
{
    if askers.is_empty() {
        out.extend_from_slice(b" -")
    } else {
        push_numbers(out, askers)
    }
}

/// Adds the line of a monitor's gate: its holder, and its askers in the order in which they asked.
pub(crate) fn push_gate_line(
    out: &mut Vec<u8>,
    name: &[u8],
    holder: Holder,
    askers: &[u32],
) -> Result<(), AllocError>
    ensures { OnOk result (out.new.items ≡ out.old.items ++
        gate_line_of name.now (states.holder holder) askers.now) }
{
    out.extend_from_slice(b"monitor ")?;
    out.extend_from_slice(name)?;
    out.extend_from_slice(b" ")?;
    push_holder(out, holder)?;
    out.extend_from_slice(b" askers")?;
    push_askers(out, askers)?;
    out.extend_from_slice(b"\n")
}
