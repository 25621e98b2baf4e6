//! Changes as lines for people.

ghost use Rattle.std.specs.Prelude.{OnOk};
ghost use Rattle.cp_trace.specs.Reporting.{Adds, IsRound};

use crate::changes::{Change, Changes, Output, Step, Value, VariableChange};
use cp_base_digits::decimal::{push_integer, push_natural};
use cp_inspect::component_table::Owner;
use cp_inspect::text::push_all_escaped;
use std::alloc::{AllocError, Global};

// Adds a text between apostrophes, with escapes.
fn push_quoted(out: &mut Vec<u8>, text: &[u8]) -> Result<(), AllocError> {
    out.extend_from_slice(b"'")?;
    push_all_escaped(out, text)?;
    out.extend_from_slice(b"'")
}

fn push_character(out: &mut Vec<u8>, character: char) -> Result<(), AllocError> {
    match u8::try_from(u32::from(character)) {
        Ok(byte) => push_quoted(out, &[byte]),
        Err(_) => Ok(()),
    }
}

fn push_value(out: &mut Vec<u8>, value: &Value<'_>) -> Result<(), AllocError> {
    match value {
        Value::Integer(n) => push_integer(out, i64::from(*n)),
        Value::Boolean(true) => out.extend_from_slice(b"true"),
        Value::Boolean(false) => out.extend_from_slice(b"false"),
        Value::Character(character) => push_character(out, *character),
        Value::Name(name) => out.extend_from_slice(name.as_bytes()),
        Value::Empty => out.extend_from_slice(b"-"),
    }
}

// Adds names, or a dash if there are none.
fn push_names(out: &mut Vec<u8>, names: &[&str]) -> Result<(), AllocError> {
    if names.is_empty() {
        return out.extend_from_slice(b"-");
    }
    for (index, name) in names.iter().enumerate() {
        if index > 0 {
            out.extend_from_slice(b" ")?;
        }
        out.extend_from_slice(name.as_bytes())?;
    }
    Ok(())
}

fn push_arrow(out: &mut Vec<u8>) -> Result<(), AllocError> {
    out.extend_from_slice(b" -> ")
}

fn push_step(out: &mut Vec<u8>, from: &str, to: &str) -> Result<(), AllocError> {
    out.extend_from_slice(from.as_bytes())?;
    push_arrow(out)?;
    out.extend_from_slice(to.as_bytes())
}

fn push_output(out: &mut Vec<u8>, output: &Output) -> Result<(), AllocError> {
    out.extend_from_slice(b"out ")?;
    push_quoted(out, output.text.as_bytes())
}

fn push_variable(out: &mut Vec<u8>, change: &VariableChange<'_>) -> Result<(), AllocError> {
    out.extend_from_slice(change.variable.as_bytes())?;
    out.extend_from_slice(b" ")?;
    push_value(out, &change.from)?;
    push_arrow(out)?;
    push_value(out, &change.to)
}

fn push_gate(out: &mut Vec<u8>, step: &Step<&str>) -> Result<(), AllocError> {
    out.extend_from_slice(b"gate ")?;
    push_step(out, step.from, step.to)
}

fn push_askers(out: &mut Vec<u8>, step: &Step<Vec<&str>>) -> Result<(), AllocError> {
    out.extend_from_slice(b"askers ")?;
    push_names(out, &step.from)?;
    push_arrow(out)?;
    push_names(out, &step.to)
}

fn push_change(out: &mut Vec<u8>, change: &Change<'_>) -> Result<(), AllocError> {
    match change {
        Change::Status(step) => push_step(out, step.from.as_str(), step.to.as_str()),
        Change::Out(output) => push_output(out, output),
        Change::Variable(change) => push_variable(out, change),
        Change::Gate(step) => push_gate(out, step),
        Change::Askers(step) => push_askers(out, step),
    }
}

fn push_subject(out: &mut Vec<u8>, changes: &Changes<'_>) -> Result<(), AllocError> {
    match changes.owner {
        Owner::Process(number) => {
            out.extend_from_slice(b"  process ")?;
            push_natural(out, u64::from(number))?;
            out.extend_from_slice(b" ")?;
        }
        Owner::Monitor(_) => out.extend_from_slice(b"  monitor ")?,
    }
    out.extend_from_slice(changes.name.as_bytes())
}

// Adds the line of a process or monitor.
fn push_line(out: &mut Vec<u8>, changes: &Changes<'_>) -> Result<(), AllocError> {
    push_subject(out, changes)?;
    for (index, change) in changes.changes.iter().enumerate() {
        out.extend_from_slice(if index == 0 { b": " } else { b"; " })?;
        push_change(out, change)?;
    }
    out.extend_from_slice(b"\n")
}

// The lines of processes and monitors.
fn lines(alloc: Global, all: &[Changes<'_>]) -> Result<Vec<u8>, AllocError> {
    let mut lines = Vec::new(alloc);
    for changes in all {
        push_line(&mut lines, changes)?;
    }
    Ok(lines)
}

/// Adds the number of a round and, below it, a line for each process and monitor that changed in
/// it. Adds nothing if none did.
///
/// # Errors
///
/// `AllocError` if memory runs out.
pub(crate) fn push_round(
    alloc: Global,
    round: u64,
    all: &[Changes<'_>],
    out: &mut Vec<u8>,
) -> Result<(), AllocError>
    ensures { OnOk result (Adds (IsRound round) out.old.items out.new.items) }
{
    if all.is_empty() {
        return Ok(());
    }
    let lines = lines(alloc, all)?;
    out.extend_from_slice(b"round ")?;
    push_natural(out, round)?;
    out.extend_from_slice(b"\n")?;
    out.extend_from_slice(&lines)
}
