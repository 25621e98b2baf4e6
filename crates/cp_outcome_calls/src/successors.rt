//! Where an operation leads within its activation.

use cp_program::operation::{Operation, Table, Then};
use cp_program::program::Program;
use std::alloc::AllocError;

/// Whether an operation is the last one that its unit makes. It is the first of the unit's operations
/// by number: they are emitted from the end to the start.
pub(crate) fn ends_unit(operation: &Operation) -> bool {
    matches!(
        operation,
        Operation::Return { .. } | Operation::EndBody | Operation::End
    )
}

/// The first operation by number of the unit that has an operation.
pub(crate) fn first_of_unit(program: &Program, operation: u32) -> u32 {
    for place in (0..operation.saturating_add(1)).rev() {
        match program.operation(place) {
            Some(before) if ends_unit(before) => return place,
            _ => {}
        }
    }
    0
}

fn push_dense(table: &[Option<u32>], places: &mut Vec<u32>) -> Result<(), AllocError> {
    for place in table {
        if let Some(place) = place {
            places.push(*place)?;
        }
    }
    Ok(())
}

/// Whether an operation may lead to any operation of its unit that was emitted before it, as the arms
/// of a `case` were. So does one whose labels are far apart.
pub(crate) fn leads_to_all_before(operation: &Operation) -> bool {
    matches!(
        operation,
        Operation::Case {
            table: Table::Sparse(_),
            ..
        }
    )
}

// Adds the places to which an operation leads that evaluates a term.
fn push_after_value(after: &Then, places: &mut Vec<u32>) -> Result<(), AllocError> {
    match after {
        Then::Set { assignment, .. }
        | Then::SetLocal { assignment, .. }
        | Then::SetMember { assignment, .. }
        | Then::SetElement { assignment, .. }
        | Then::SetResult(assignment) => places.push(assignment.next)?,
        Then::Test { yes, no } => {
            places.push(*yes)?;
            places.push(*no)?;
        }
    }
    Ok(())
}

/// Adds the places to which an operation leads within its activation, unless it leads to all before
/// it. Fails only if memory runs out.
pub(crate) fn push_successors(
    operation: &Operation,
    places: &mut Vec<u32>,
) -> Result<(), AllocError> {
    match operation {
        Operation::Evaluate { then, .. } => push_after_value(then, places)?,
        Operation::CopyWords { next, .. }
        | Operation::Procedure { next, .. }
        | Operation::Function { next, .. }
        | Operation::InitClass { next, .. }
        | Operation::InitMonitor { next, .. }
        | Operation::InitProcess { next, .. }
        | Operation::Display { next, .. }
        | Operation::Accept { next, .. }
        | Operation::Delay { next, .. }
        | Operation::Wait { next } => places.push(*next)?,
        Operation::Case {
            table: Table::Dense { places: table, .. },
            ..
        } => push_dense(table, places)?,
        Operation::For { counting, .. } | Operation::ForNext(counting) => {
            places.push(counting.body)?;
            places.push(counting.next)?;
        }
        Operation::Cycle { body } => places.push(*body)?,
        Operation::Return { .. }
        | Operation::EndBody
        | Operation::End
        | Operation::Continue { .. }
        | Operation::Case {
            table: Table::Sparse(_),
            ..
        } => {}
    }
    Ok(())
}
