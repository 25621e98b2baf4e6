//! Stretches of rounds in which a process or a monitor stays the same, and the words for them.

use crate::colours::colour;
use crate::grid::Cell;
use crate::owners::name_of;
use cp_inspect::component_table::{ComponentTable, Owner};
use cp_inspect::status::fault_number;
use std::alloc::{AllocError, Global};

/// Cells of a row that are the same, from a column up to another.
#[derive(Clone, Copy)]
pub(crate) struct Bar {
    pub(crate) cell: Cell,
    pub(crate) from: usize,
    pub(crate) end: usize,
}

/// The stretches of cells, in their order. The first cell is that of column 0.
pub(crate) fn bars(alloc: Global, cells: &[Cell]) -> Result<Vec<Bar>, AllocError> {
    let mut bars: Vec<Bar> = Vec::new(alloc);
    for (from, cell) in cells.iter().enumerate() {
        let end = from.saturating_add(1);
        match bars.last_mut() {
            Some(bar) if bar.cell == *cell => bar.end = end,
            _ => {
                bars.push(Bar {
                    cell: *cell,
                    from,
                    end,
                })?;
            }
        }
    }
    Ok(bars)
}

// What a cell is, in a word.
fn word_of(cell: Cell) -> &'static str {
    match cell {
        Cell::Unstarted => "unstarted",
        Cell::Ready => "ready",
        Cell::Waiting => "waiting",
        Cell::Asking(_) => "asking",
        Cell::Delayed(_) => "delayed",
        Cell::Ended => "ended",
        Cell::Fault(_) => "fault",
        Cell::Unset => "unset",
        Cell::Free => "free",
        Cell::Held(_) => "held by",
    }
}

// The longer of two texts that has at most so many characters, or none.
fn that_fits(long: String, short: String, most: usize) -> Option<String> {
    if long.len() <= most {
        Some(long)
    } else if short.len() <= most {
        Some(short)
    } else {
        None
    }
}

impl Bar {
    /// The class of its colour.
    pub(crate) fn class(&self) -> &'static str {
        match self.cell {
            Cell::Unstarted | Cell::Unset => "unset",
            Cell::Ready => "ready",
            Cell::Waiting => "waiting",
            Cell::Asking(_) => "asking",
            Cell::Delayed(_) => "delayed",
            Cell::Ended => "ended",
            Cell::Fault(_) => "fault",
            Cell::Free => "free",
            Cell::Held(process) => colour(process),
        }
    }

    // The name of the monitor that is asked for or delayed in, the name of the holder of a gate, or
    // the number of a fault. Other cells have none of these.
    fn about(
        &self,
        alloc: Global,
        component_table: &ComponentTable<'_>,
    ) -> Result<Option<String>, AllocError> {
        let about = match self.cell {
            Cell::Asking(monitor) | Cell::Delayed(monitor) => {
                String::from_str(alloc, name_of(component_table, Owner::Monitor(monitor)))
            }
            Cell::Held(process) => {
                String::from_str(alloc, name_of(component_table, Owner::Process(process)))
            }
            Cell::Fault(fault) => fault_number(fault).to_string(alloc),
            _ => return Ok(None),
        };
        Ok(Some(about?))
    }

    /// What it is in words, such as `delayed table`, `held by a`, `fault 3` or `ready`.
    pub(crate) fn words(
        &self,
        alloc: Global,
        component_table: &ComponentTable<'_>,
    ) -> Result<String, AllocError> {
        let word = word_of(self.cell);
        match self.about(alloc, component_table)? {
            Some(about) => format!(in alloc; "{word} {about}"),
            None => String::from_str(alloc, word),
        }
    }

    /// What is written on it, in at most so many characters. For a gate this is the name or the
    /// number of its holder, for other cells the words or what they are about. It is nothing if
    /// neither is short enough, or if the colour says all.
    pub(crate) fn caption(
        &self,
        alloc: Global,
        component_table: &ComponentTable<'_>,
        most: usize,
    ) -> Result<Option<String>, AllocError> {
        let Some(about) = self.about(alloc, component_table)? else {
            return Ok(None);
        };
        if let Cell::Held(process) = self.cell {
            return Ok(that_fits(about, process.to_string(alloc)?, most));
        }
        Ok(that_fits(self.words(alloc, component_table)?, about, most))
    }
}
