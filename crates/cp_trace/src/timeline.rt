//! A grid as text: a row for each process or monitor, and a character for each round.

ghost use Rattle.std.specs.Prelude.{OnOk};
ghost use Rattle.cp_trace.specs.Reporting.{Adds, IsAnything, IsSomething};

use crate::grid::{Cell, Grid, Row};
use cp_inspect::component_table::Owner;
use cp_inspect::inspect::Inspect;
use std::alloc::AllocError;
use std::fmt::Write;

// The longest line.
const WIDTH: usize = 100;

// The number of rounds in a block is a multiple of this. Rounds whose numbers are multiples of it
// have their numbers above them.
const STEP: usize = 10;

const LEGEND: &str =
    "process: . unstarted, r ready, a asking, d delayed, w waiting, e ended, F fault
monitor: . unset, - free, else the sign of the process that holds it
";

// The sign of a process, which is before its name: a digit, or a letter from the tenth on. All
// processes above the 61st share one sign.
fn sign(number: u32) -> char {
    char::from(match u8::try_from(number) {
        Ok(digit) if digit < 10 => b'0' + digit,
        Ok(letter) if letter < 36 => b'a' + (letter - 10),
        Ok(letter) if letter < 62 => b'A' + (letter - 36),
        _ => b'#',
    })
}

fn letter(cell: Cell) -> char {
    match cell {
        Cell::Unstarted | Cell::Unset => '.',
        Cell::Ready => 'r',
        Cell::Waiting => 'w',
        Cell::Asking(_) => 'a',
        Cell::Delayed(_) => 'd',
        Cell::Ended => 'e',
        Cell::Fault(_) => 'F',
        Cell::Free => '-',
        Cell::Held(process) => sign(process),
    }
}

/// A grid that is reported as text, block by block.
#[derive(Drop)]
pub struct Timeline<'t> {
    grid: Grid<'t>,
    /// The number of characters before the cells: a sign, a name, and blanks around it.
    margin: usize,
    /// The number of rounds in a block.
    block: usize,
}

impl<'t> Timeline<'t> {
    /// The timeline that reports a grid.
    pub(crate) fn of(grid: Grid<'t>) -> Timeline<'t> {
        let margin = grid.longest_name().max(b"rnd".len()).saturating_add(4);
        let steps = (WIDTH.saturating_sub(margin) / STEP).max(1);
        Timeline {
            grid,
            margin,
            block: steps.saturating_mul(STEP),
        }
    }

    // Adds the number of the round in a column above it, if there is room.
    fn push_mark(&self, page: &mut String, column: usize) -> Result<(), AllocError> {
        let number = self.grid.round(column).to_string(self.grid.alloc)?;
        let at = self.margin.saturating_add(column);
        let end = at.saturating_add(number.len());
        if page.len() < at && end <= WIDTH {
            let width = end.saturating_sub(page.len());
            write!(page, "{number:>width$}")?;
        }
        Ok(())
    }

    // Adds the line above a block, which begins with it.
    fn push_ruler(&self, page: &mut String) -> Result<(), AllocError> {
        page.push_str("round")?;
        for column in 0..self.grid.columns {
            if column == 0 || self.grid.round(column) % STEP as u64 == 0 {
                self.push_mark(page, column)?;
            }
        }
        page.push('\n')
    }

    // Adds the line of a process or monitor.
    fn push_row(&self, page: &mut String, row: &Row<'_>) -> Result<(), AllocError> {
        let sign = match row.owner {
            Owner::Process(number) => sign(number),
            Owner::Monitor(_) => ' ',
        };
        let (name, width) = (row.name, self.margin.saturating_sub(2));
        write!(page, "{sign} {name:<width$}")?;
        for cell in &row.cells {
            page.push(letter(*cell))?;
        }
        page.push('\n')
    }

    // The cells as text.
    fn block(&self) -> Result<String, AllocError> {
        let mut page = String::new(self.grid.alloc);
        self.push_ruler(&mut page)?;
        for row in &self.grid.rows {
            self.push_row(&mut page, row)?;
        }
        page.push('\n')?;
        Ok(page)
    }

    /// Sees the machine after a round, and adds a block once it is full.
    ///
    /// # Errors
    ///
    /// `AllocError` if memory runs out. The timeline is then of no further use.
    pub(crate) fn follow<M: Inspect>(
        &mut self,
        machine: &M,
        out: &mut Vec<u8>,
    ) -> Result<(), AllocError>
        ensures { OnOk result (Adds IsAnything out.old.items out.new.items) }
    {
        self.grid.see(machine)?;
        if self.grid.columns < self.block {
            return Ok(());
        }
        let block = self.block()?;
        self.grid.clear();
        out.extend_from_slice(block.as_bytes())
    }

    /// Adds what is left, and what the characters mean.
    ///
    /// # Errors
    ///
    /// `AllocError` if memory runs out.
    pub(crate) fn finish(&self, out: &mut Vec<u8>) -> Result<(), AllocError>
        ensures { OnOk result (Adds IsSomething out.old.items out.new.items) }
    {
        if self.grid.columns > 0 {
            out.extend_from_slice(self.block()?.as_bytes())?;
        }
        out.extend_from_slice(LEGEND.as_bytes())
    }
}
