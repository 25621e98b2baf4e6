//! What the processes and monitors of a machine are after each of some rounds.

use crate::owners::{chosen, name_of};
use crate::topic::Topic;
use cp_inspect::component_table::{ComponentTable, Owner};
use cp_inspect::inspect::Inspect;
use cp_inspect::state::ProcState;
use cp_model::state::Fault;
use cp_private::kernel_view::Holder;
use std::alloc::{AllocError, Global};

/// What a process or a monitor is after a round. The numbers are those of monitors and, in `Held`,
/// of a process.
#[derive(Clone, Copy, PartialEq, Eq)]
pub(crate) enum Cell {
    Unstarted,
    Ready,
    Waiting,
    Asking(u32),
    Delayed(u32),
    Ended,
    Fault(Fault),
    Unset,
    Free,
    Held(u32),
}

/// A process or a monitor, and a cell for each round.
#[derive(Drop)]
pub(crate) struct Row<'t> {
    pub(crate) owner: Owner,
    pub(crate) name: &'t str,
    pub(crate) cells: Vec<Cell>,
}

/// The processes and monitors that a trace reports, with what they are after each of some rounds.
#[derive(Drop)]
pub(crate) struct Grid<'t> {
    pub(crate) alloc: Global,
    pub(crate) component_table: ComponentTable<'t>,
    pub(crate) rows: Vec<Row<'t>>,
    /// The round of the first cells.
    pub(crate) first: u64,
    /// The number of rounds.
    pub(crate) columns: usize,
}

fn cell_of_process<M: Inspect>(machine: &M, number: u32) -> Cell {
    match machine.state_of(number) {
        ProcState::Unstarted => Cell::Unstarted,
        // A process is fresh only within the round that starts it.
        ProcState::Fresh | ProcState::Ready => Cell::Ready,
        ProcState::Asking(monitor) => Cell::Asking(monitor),
        ProcState::Delayed { monitor, queue: _ } => Cell::Delayed(monitor),
        ProcState::Waiting => Cell::Waiting,
        ProcState::Ended => Cell::Ended,
        ProcState::Faulted(fault) => Cell::Fault(fault),
    }
}

fn cell_of_monitor<M: Inspect>(machine: &M, number: u32) -> Cell {
    match machine.holder_of(number) {
        Holder::Unset => Cell::Unset,
        Holder::Free => Cell::Free,
        Holder::Process(process) => Cell::Held(process),
    }
}

fn cell_of<M: Inspect>(machine: &M, owner: Owner) -> Cell {
    match owner {
        Owner::Process(number) => cell_of_process(machine, number),
        Owner::Monitor(number) => cell_of_monitor(machine, number),
    }
}

impl<'t> Grid<'t> {
    /// The grid of the rounds of a topic, without cells.
    ///
    /// # Errors
    ///
    /// `AllocError` if memory runs out.
    pub(crate) fn of(alloc: Global, topic: Topic<'_, 't>) -> Result<Grid<'t>, AllocError> {
        let mut rows = Vec::new(alloc);
        for owner in chosen(alloc, &topic.component_table, topic.only)? {
            rows.push(Row {
                owner,
                name: name_of(&topic.component_table, owner),
                cells: Vec::new(alloc),
            })?;
        }
        Ok(Grid {
            alloc,
            component_table: topic.component_table,
            rows,
            first: topic.done.saturating_add(1),
            columns: 0,
        })
    }

    /// Adds a cell to each row, as the machine is after a round.
    ///
    /// # Errors
    ///
    /// `AllocError` if memory runs out. The grid is then of no further use.
    pub(crate) fn see<M: Inspect>(&mut self, machine: &M) -> Result<(), AllocError> {
        for row in self.rows.iter_mut() {
            row.cells.push(cell_of(machine, row.owner))?;
        }
        self.columns = self.columns.saturating_add(1);
        Ok(())
    }

    /// Drops all cells. The next ones are those of the round that comes next.
    pub(crate) fn clear(&mut self) {
        for row in self.rows.iter_mut() {
            row.cells.clear();
        }
        self.first = self.round(self.columns);
        self.columns = 0;
    }

    /// The round of a column.
    pub(crate) fn round(&self, column: usize) -> u64 {
        self.first.saturating_add(column as u64)
    }

    /// The length of the longest name.
    pub(crate) fn longest_name(&self) -> usize {
        self.rows
            .iter()
            .map(|row| row.name.len())
            .max()
            .unwrap_or(0)
    }
}
