//! A grid as a picture: a coloured bar for each stretch of rounds in which nothing changed.
//!
//! A picture is a head, bands of at most 100 rounds one below the other, and a legend. All lengths
//! are in pixels.

ghost use Rattle.std.specs.Prelude.{OnOk};
ghost use Rattle.cp_trace.specs.Reporting.{Adds, IsAnything, IsSomething};

use crate::bars::{Bar, bars};
use crate::colours::{LEGEND_HEIGHT, LEGEND_WIDTH, STYLE, colour, push_legend};
use crate::grid::{Cell, Grid, Row};
use crate::markup::{Area, begin_rectangle, push_rectangle, push_text};
use cp_inspect::component_table::Owner;
use cp_inspect::inspect::Inspect;
use std::alloc::AllocError;
use std::fmt::Write;

// The width of a round in pixels, and the most rounds in a band.
const COLUMN: usize = 12;

const BAND: usize = 100;

// The height of a row, that of the bars in it, and the distance from its top to the foot of its
// letters.
const ROW: usize = 18;

const BAR: usize = 14;

const FOOT: usize = 11;

// The distance between the rows of the processes and those of the monitors.
const GAP: usize = 6;

// The distance from the top of a band to its first row, and from its last row to the next band.
const ABOVE: usize = 24;

const BELOW: usize = 16;

// The width of a character of a bar, and of one of a name, and where names begin.
const CHARACTER: usize = 6;

const NAME_CHARACTER: usize = 8;

const NAMES: usize = 36;

// The margin around all.
const MARGIN: usize = 12;

/// A grid that is reported as a picture, band by band.
#[derive(Drop)]
pub struct Picture<'t> {
    grid: Grid<'t>,
    /// How many rounds there are to be in all.
    rounds: usize,
    /// The left edge of the cells.
    left: usize,
    /// The number of the band of the grid's cells, from 0.
    band: usize,
}

impl<'t> Picture<'t> {
    /// The picture that shows a grid of so many rounds.
    pub(crate) fn of(grid: Grid<'t>, rounds: u32) -> Picture<'t> {
        let names = grid.longest_name().saturating_mul(NAME_CHARACTER);
        let columns = names.saturating_add(NAMES) / COLUMN;
        Picture {
            grid,
            rounds: rounds as usize,
            left: columns.saturating_add(1).saturating_mul(COLUMN),
            band: 0,
        }
    }

    fn width(&self) -> usize {
        let columns = self.rounds.min(BAND).saturating_mul(COLUMN);
        let cells = self.left.saturating_add(columns);
        cells.max(LEGEND_WIDTH).saturating_add(MARGIN)
    }

    // The height of the rows of a band.
    fn rows_height(&self) -> usize {
        let rows = self.grid.rows.len().saturating_mul(ROW);
        rows.saturating_add(GAP)
    }

    // The top of a band, by its number from 0, or of the legend below the last one.
    fn top(&self, band: usize) -> usize {
        let height = self.rows_height().saturating_add(ABOVE + BELOW);
        height.saturating_mul(band).saturating_add(MARGIN)
    }

    // The top of the legend.
    fn legend_top(&self) -> usize {
        self.top(self.rounds.div_ceil(BAND))
    }

    // The left edge of a column.
    fn edge(&self, column: usize) -> usize {
        column.saturating_mul(COLUMN).saturating_add(self.left)
    }

    // The area of columns in a row whose top is `y`.
    fn area(&self, from: usize, end: usize, y: usize) -> Area {
        Area {
            x: self.edge(from),
            y,
            width: end.saturating_sub(from).saturating_mul(COLUMN),
            height: BAR,
        }
    }

    fn push_head(&self, page: &mut String) -> Result<(), AllocError> {
        let width = self.width();
        let height = self.legend_top().saturating_add(LEGEND_HEIGHT);
        writeln!(
            page,
            "<svg xmlns=\"http://www.w3.org/2000/svg\" width=\"{width}\" height=\"{height}\" \
viewBox=\"0 0 {width} {height}\">"
        )?;
        page.push_str(STYLE)?;
        let (x, y) = (0, 0);
        push_rectangle(
            page,
            "page",
            Area {
                x,
                y,
                width,
                height,
            },
        )
    }

    // Adds the number of the round in a column above it, and a line from there down through the
    // rows.
    fn push_mark(&self, page: &mut String, column: usize, top: usize) -> Result<(), AllocError> {
        let x = self.edge(column).saturating_add(COLUMN / 2);
        let round = self.grid.round(column);
        push_text(page, "round", x, top.saturating_add(14), round)?;
        let line = Area {
            x,
            y: top.saturating_add(18),
            width: 1,
            height: self.rows_height().saturating_add(4),
        };
        push_rectangle(page, "mark", line)
    }

    // Adds the numbers above a band: that of its first round, and each multiple of 10 that is far
    // enough from the first.
    fn push_marks(&self, page: &mut String, top: usize) -> Result<(), AllocError> {
        for column in 0..self.grid.columns {
            let is_tenth = self.grid.round(column) % 10 == 0;
            if column == 0 || (is_tenth && 4 <= column) {
                self.push_mark(page, column, top)?;
            }
        }
        Ok(())
    }

    // Adds the name of a row and, for a process, its number on its colour.
    fn push_name(&self, page: &mut String, row: &Row<'_>, y: usize) -> Result<(), AllocError> {
        let foot = y.saturating_add(FOOT);
        if let Owner::Process(number) = row.owner {
            let (x, width, height) = (8, 22, BAR);
            push_rectangle(
                page,
                colour(number),
                Area {
                    x,
                    y,
                    width,
                    height,
                },
            )?;
            push_text(page, "light", 19, foot, number)?;
        }
        push_text(page, "name", NAMES, foot, row.name)
    }

    // Adds the rounds of a bar.
    fn push_rounds(&self, page: &mut String, bar: &Bar) -> Result<(), AllocError> {
        let first = self.grid.round(bar.from);
        let last = self.grid.round(bar.end.saturating_sub(1));
        if first == last {
            return write!(page, "round {first}");
        }
        write!(page, "rounds {first} to {last}")
    }

    // Adds a bar, with a title: what it says of which process or monitor, and the rounds.
    fn push_bar(
        &self,
        page: &mut String,
        row: &Row<'_>,
        bar: &Bar,
        y: usize,
    ) -> Result<(), AllocError> {
        begin_rectangle(page, bar.class(), self.area(bar.from, bar.end, y))?;
        let (name, words) = (
            row.name,
            bar.words(self.grid.alloc, &self.grid.component_table)?,
        );
        write!(page, "<title>{name}: {words}, ")?;
        self.push_rounds(page, bar)?;
        page.push_str("</title></rect>\n")
    }

    // Adds what is written on a bar.
    fn push_caption(&self, page: &mut String, bar: &Bar, y: usize) -> Result<(), AllocError> {
        let Area { x, width, .. } = self.area(bar.from, bar.end, y);
        let caption = bar.caption(
            self.grid.alloc,
            &self.grid.component_table,
            width / CHARACTER,
        )?;
        let Some(caption) = caption else {
            return Ok(());
        };
        let class = match bar.cell {
            Cell::Held(_) | Cell::Fault(_) => "light",
            _ => "inner",
        };
        let middle = x.saturating_add(width / 2);
        push_text(
            page,
            class,
            middle,
            y.saturating_add(FOOT),
            caption.as_str(),
        )
    }

    fn push_bars(
        &self,
        page: &mut String,
        row: &Row<'_>,
        bars: &[Bar],
        y: usize,
    ) -> Result<(), AllocError> {
        for bar in bars {
            self.push_bar(page, row, bar, y)?;
        }
        Ok(())
    }

    fn push_captions(&self, page: &mut String, bars: &[Bar], y: usize) -> Result<(), AllocError> {
        for bar in bars {
            self.push_caption(page, bar, y)?;
        }
        Ok(())
    }

    // Adds a row: its name, its bars, the lines between its rounds, and what is written on the bars.
    fn push_row(&self, page: &mut String, row: &Row<'_>, y: usize) -> Result<(), AllocError> {
        let bars = bars(self.grid.alloc, &row.cells)?;
        self.push_name(page, row, y)?;
        self.push_bars(page, row, &bars, y)?;
        push_rectangle(page, "lines", self.area(0, self.grid.columns, y))?;
        self.push_captions(page, &bars, y)
    }

    // The top of a row of the band, by its number from 0.
    fn row_top(&self, index: usize, row: &Row<'_>) -> usize {
        let gap = match row.owner {
            Owner::Process(_) => 0,
            Owner::Monitor(_) => GAP,
        };
        let above = index.saturating_mul(ROW).saturating_add(ABOVE + gap);
        self.top(self.band).saturating_add(above)
    }

    // The band of the cells.
    fn band(&self) -> Result<String, AllocError> {
        let mut page = String::new(self.grid.alloc);
        self.push_marks(&mut page, self.top(self.band))?;
        for (index, row) in self.grid.rows.iter().enumerate() {
            self.push_row(&mut page, row, self.row_top(index, row))?;
        }
        Ok(page)
    }

    /// Adds the head.
    ///
    /// # Errors
    ///
    /// `AllocError` if memory runs out.
    pub(crate) fn begin(&self, out: &mut Vec<u8>) -> Result<(), AllocError>
        ensures { OnOk result (Adds IsAnything out.old.items out.new.items) }
    {
        let mut page = String::new(self.grid.alloc);
        self.push_head(&mut page)?;
        out.extend_from_slice(page.as_bytes())
    }

    /// Sees the machine after a round, and adds a band once it is full.
    ///
    /// # Errors
    ///
    /// `AllocError` if memory runs out. The picture is then of no further use.
    pub(crate) fn follow<M: Inspect>(
        &mut self,
        machine: &M,
        out: &mut Vec<u8>,
    ) -> Result<(), AllocError>
        ensures { OnOk result (Adds IsAnything out.old.items out.new.items) }
    {
        self.grid.see(machine)?;
        if self.grid.columns < BAND {
            return Ok(());
        }
        let band = self.band()?;
        self.grid.clear();
        self.band = self.band.saturating_add(1);
        out.extend_from_slice(band.as_bytes())
    }

    /// Adds what is left, and the legend.
    ///
    /// # Errors
    ///
    /// `AllocError` if memory runs out.
    pub(crate) fn finish(&self, out: &mut Vec<u8>) -> Result<(), AllocError>
        ensures { OnOk result (Adds IsSomething out.old.items out.new.items) }
    {
        let mut page = String::new(self.grid.alloc);
        if self.grid.columns > 0 {
            page = self.band()?;
        }
        push_legend(&mut page, self.legend_top())?;
        out.extend_from_slice(page.as_bytes())?;
        out.extend_from_slice(b"</svg>\n")
    }
}
