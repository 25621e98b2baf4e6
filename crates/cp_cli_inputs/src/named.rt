//! The processes, monitors and variables of a text by name: whether there are such, and the numbers
//! of processes.

ghost use Rattle.std.specs.List.{range_with_len};
ghost use Rattle.std.specs.Prelude.{◌≡◌, ◌+◌, IfErr, IfOk, Ok, length, option_map};
ghost use Rattle.cp_model.specs.Abstract.{Monitor, Process};
ghost use Rattle.cp_inspect.specs.Names.{names_of};
ghost use Rattle.cp_cli_inputs.specs.Numbers.{ReportsUnknown, names_in, numbers_meant, numbers_named, texts_of, unknown_in};

use crate::error::InputError;
use cp_check::checking::tables_of;
use cp_compile_symbols::{Tables, small_number};
use cp_frontend::sources::AcceptedText;
use cp_inspect::component_table::ComponentTable;
use cp_inspect::leaves::{initial_leaves, leaves};
use cp_outcome_variables::named::{Named, row_of};
use std::alloc::{AllocError, Global};

// The name of all processes together.
const ALL: &str = "all";

/// The processes and the monitors of an accepted text.
///
/// # Errors
///
/// `AllocError` if memory runs out.
pub(crate) fn component_table_of<'t>(
    alloc: Global,
    text: &'t AcceptedText,
) -> Result<ComponentTable<'t>, AllocError>
    ensures processes { IfOk result
        (λ table. names_of table.processes.items ≡ names_in text.now Process) }
    ensures monitors { IfOk result
        (λ table. names_of table.monitors.items ≡ names_in text.now Monitor) }
{
    let tables = tables_of(alloc, text.key, &text.tree)?;
    ComponentTable::of(alloc, &tables)
}

// The numbers of all processes.
fn all_processes(
    alloc: Global,
    component_table: &ComponentTable<'_>,
) -> Result<Vec<u32>, AllocError>
    ensures { IfOk result (λ all. all.items
        ≡ range_with_len 1 (length component_table.now.processes.items + 1)) }
{
    // The table has no initial process.
    let count = small_number(component_table.processes.len().saturating_add(1))?;
    let mut numbers = Vec::new(alloc);
    for index in 0..count {
        numbers.push(index + 1)?;
    }
    Ok(numbers)
}

// The numbers that a name means, if it means a process or all of them.
fn numbers_of(
    alloc: Global,
    component_table: &ComponentTable<'_>,
    name: &str,
) -> Result<Option<Vec<u32>>, AllocError>
    ensures { IfOk result (λ meant. option_map (λ v. v.items) meant
        ≡ numbers_meant name.now (names_of component_table.now.processes.items)) }
{
    Ok(match component_table.process(name.as_bytes())? {
        Some(number) => Some(vec![in alloc; number]?),
        None if name.eq_ignore_ascii_case(ALL) => Some(all_processes(alloc, component_table)?),
        None => None,
    })
}

// The numbers that these names mean, one name after another.
fn all_numbers<'a>(
    alloc: Global,
    component_table: &ComponentTable<'_>,
    names: &[&'a str],
) -> Result<Vec<u32>, InputError<'a>>
    ensures numbers { IfOk result (λ numbers. numbers_named (texts_of names.now)
        (names_of component_table.now.processes.items) ≡ Ok numbers.items) }
    ensures unknown { IfErr result (ReportsUnknown (numbers_named (texts_of names.now)
        (names_of component_table.now.processes.items))) }
{
    let mut numbers = Vec::new(alloc);
    for name in names {
        match numbers_of(alloc, component_table, name)? {
            Some(meant) => numbers.extend_from_slice(&meant)?,
            None => return Err(InputError::NoProcess { process: *name }),
        }
    }
    Ok(numbers)
}

/// The numbers of the processes with these names, in any letter case. Process 1 is named `initial`,
/// unless another process has that name. The name `all` means all processes, unless a process has
/// that name.
///
/// # Errors
///
/// `NoProcess` for the first name that no process has, and M if memory runs out.
pub fn process_numbers<'a>(
    alloc: Global,
    text: &AcceptedText,
    names: &[&'a str],
) -> Result<Vec<u32>, InputError<'a>>
    ensures numbers { IfOk result (λ numbers. numbers_named (texts_of names.now)
        (names_in text.now Process) ≡ Ok numbers.items) }
    ensures unknown { IfErr result (ReportsUnknown (numbers_named (texts_of names.now)
        (names_in text.now Process))) }
{
    if names.is_empty() {
        return Ok(Vec::new(alloc));
    }
    let component_table = component_table_of(alloc, text)?;
    all_numbers(alloc, &component_table, names)
}

// The first of these names that no component has, if there is one.
fn first_unknown<'a>(
    component_table: &ComponentTable<'_>,
    names: &[&'a str],
) -> Result<Option<&'a str>, AllocError>
    ensures { IfOk result (λ found. option_map (λ x. x.now) found
        ≡ unknown_in (names_of component_table.now.monitors.items)
        (names_of component_table.now.processes.items) (texts_of names.now)) }
{
    for name in names {
        if component_table.owner(name.as_bytes())?.is_none() {
            return Ok(Some(*name));
        }
    }
    Ok(None)
}

/// The first of these names that no process and no monitor of a text has, in any letter
/// case, if there is one.
///
/// # Errors
///
/// `AllocError` if memory runs out.
pub fn unknown_name<'a>(
    alloc: Global,
    text: &AcceptedText,
    names: &[&'a str],
) -> Result<Option<&'a str>, AllocError>
    ensures { IfOk result (λ found. option_map (λ x. x.now) found
        ≡ unknown_in (names_in text.now Monitor) (names_in text.now Process)
        (texts_of names.now)) }
{
    let component_table = component_table_of(alloc, text)?;
    first_unknown(&component_table, names)
}

// Whether a variable has this name, or a part of one, or a process or a monitor.
fn is_known(
    alloc: Global,
    tables: &Tables<'_>,
    component_table: &ComponentTable<'_>,
    name: &str,
) -> Result<bool, AllocError> {
    let Some(named) = Named::of(component_table, name)? else {
        return Ok(false);
    };
    let leaves = match row_of(component_table, named.owner) {
        Some(row) => leaves(alloc, tables, row)?,
        None => initial_leaves(alloc, tables)?,
    };
    Ok(named.is_whole() || leaves.iter().any(|leaf| named.has(leaf)))
}

/// The first of these names that names no variable of a text, as `m.balance` does, and no process and
/// no monitor, in any letter case, if there is one.
///
/// # Errors
///
/// `AllocError` if memory runs out.
pub fn unknown_variable<'a>(
    alloc: Global,
    text: &AcceptedText,
    names: &[&'a str],
) -> Result<Option<&'a str>, AllocError> {
    let tables = tables_of(alloc, text.key, &text.tree)?;
    let component_table = ComponentTable::of(alloc, &tables)?;
    for name in names {
        if !is_known(alloc, &tables, &component_table, name)? {
            return Ok(Some(*name));
        }
    }
    Ok(None)
}
