//! The widths of columns. Each padded column is as wide as its widest cell.

ghost use Rattle.std.specs.Prelude.{◌≡◌, ◌≤◌, ◌++◌, ◌-◌, [], length, slice_index, IfOk, OnOk, string_bytes};
ghost use Rattle.lc_formats.specs.BarCells.{bar_cells, but_last, room_after, ruled};
ghost use Rattle.lc_formats.specs.Cells.{cells_of};
ghost use Rattle.lc_formats.specs.Columns.{cell_widths, gap, gap_width, line_in, rule_in, shown_cells, wider};
ghost use Rattle.lc_formats.specs.Widening.{with_width};

use crate::cells::{Cell, push_copies};
use crate::shares::FULL_BAR;
use std::alloc::{AllocError, Global};
use std::marker::Model;

/// The width of each column, in columns of a terminal.
#[derive(Drop)]
pub(crate) struct Widths {
    of_columns: Vec<usize>,
}

impl Model for Widths {
    ghost use Rattle.std.specs.Prelude.{ℕ, List};

    ghost Value = { List ℕ };

    ghost view = { λ w. w.of_columns.items };
}

/// Returns the cells of a line up to the last cell that shows something.
fn shown_cells<'c, 'a>(
    cells: &'c [Cell<'a>],
    made: &mut String,
) -> Result<&'c [Cell<'a>], AllocError>
    ensures { IfOk result (λ shown. cells_of shown.now ≡ shown_cells (cells_of cells.now)) }
{
    let mut count = cells.len();
    'count: while count > 0 {
        if cells[count - 1].is_shown(made)? {
            return Ok(&cells[..count]);
        }
        count -= 1;
    }
    Ok(&[])
}

/// Returns the width of the gap before these columns.
fn gap_width(others: &[usize]) -> usize
    ensures { result ≡ gap_width others.now }
{
    if others.is_empty() { 0 } else { 2 }
}

/// Returns the widths of all columns but the last.
fn but_last(widths: &[usize]) -> &[usize]
    ensures { result.now ≡ but_last widths.entry.now }
{
    &widths[..widths.len().saturating_sub(1)]
}

/// Returns how many of the 80 columns of a terminal are free after columns of these widths and the gap behind them.
fn room_after(widths: &[usize]) -> usize
    ensures { result ≡ room_after widths.now }
{
    let mut room: usize = 78;
    let mut rest = widths;
    'widths: while let Some((width, others)) = rest.split_first() {
        room = room
            .saturating_sub(*width)
            .saturating_sub(gap_width(others));
        rest = others;
    }
    room
}

impl Widths {
    pub(crate) fn new(alloc: Global) -> Widths
        ensures { result ≡ [] }
    {
        Widths {
            of_columns: Vec::new(alloc),
        }
    }

    fn widen(&mut self, column: usize, width: usize) -> Result<(), AllocError>
        requires { column ≤ length self.old }
        ensures { OnOk result (self.new ≡ with_width self.old column width) }
    {
        let columns = self.of_columns.as_slice().len();
        if column < columns {
            let own = self.of_columns[column];
            self.of_columns[column] = own.max(width);
        } else {
            self.of_columns.push(width)?;
        }
        Ok(())
    }

    /// Makes each column at least as wide as its cell in this line.
    pub(crate) fn fit(&mut self, cells: &[Cell<'_>], made: &mut String) -> Result<(), AllocError>
        ensures { OnOk result (self.new ≡ wider self.old (cell_widths (cells_of cells.now))) }
    {
        for (column, cell) in cells.iter().enumerate() {
            let width = cell.width(made)?;
            self.widen(column, width)?;
        }
        Ok(())
    }

    /// Returns the width of a column: 0 if it has no cell.
    pub(crate) fn width(&self, column: usize) -> usize
        ensures { result ≡ slice_index self.now column }
    {
        self.of_columns.get(column).copied().unwrap_or(0)
    }

    /// Appends a line of these cells. The line ends after the last cell that shows something.
    pub(crate) fn push_line(
        &self,
        cells: &[Cell<'_>],
        text: &mut String,
        made: &mut String,
    ) -> Result<(), AllocError>
        ensures { OnOk result (string_bytes text.new ≡ string_bytes text.old ++ line_in self.now (cells_of cells.now)) }
    {
        let shown = shown_cells(cells, made)?;
        for (column, cell) in shown.iter().enumerate() {
            let others = &shown[column + 1..];
            cell.push_before(others, self.width(column), text, made)?;
            text.push_str(if others.is_empty() { "" } else { "  " })?;
        }
        text.push_str("\n")
    }

    /// Returns how many cells the longest bar has in the last column, so that lines fit a terminal of 80 columns: at most 20, and none if
    /// there is no room for 5.
    pub(crate) fn bar_cells(&self) -> u8
        ensures { result ≡ bar_cells self.now }
    {
        let room = room_after(but_last(&self.of_columns));
        if room < 5 {
            0
        } else {
            room.min(usize::from(FULL_BAR)) as u8
        }
    }

    /// Returns the widths of the columns below which rules are drawn: not of the last column, of bars, if bars have no cells.
    fn ruled(&self, bar: u8) -> &[usize]
        ensures { result.now ≡ ruled bar self.now }
    {
        let widths = self.of_columns.as_slice();
        if bar == 0 { but_last(widths) } else { widths }
    }

    /// Appends a line of hyphens.
    pub(crate) fn push_rule(&self, bar: u8, text: &mut String) -> Result<(), AllocError>
        ensures { OnOk result (string_bytes text.new ≡ string_bytes text.old ++ rule_in (ruled bar self.now)) }
    {
        let mut widths = self.ruled(bar);
        'widths: while let Some((width, others)) = widths.split_first() {
            push_copies(text, '-', *width)?;
            push_copies(text, '-', gap_width(others))?;
            widths = others;
        }
        text.push_str("\n")
    }
}
