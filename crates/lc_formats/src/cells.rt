//! The cells of a line in a human-readable table.

ghost use Rattle.std.specs.Prelude.{◌≡◌, ◌<◌, ◌++◌, IfOk, OnOk, replicate, string_bytes};
ghost use Rattle.lc_formats.specs.Cells.{cell_at, cell_model, cell_of, cells_of, heading_cell, heading_cells, line_cells};
ghost use Rattle.lc_formats.specs.Columns.{is_shown, text_before, width_at};
ghost use Rattle.lc_formats.specs.Shares.{full_bar};
ghost use Rattle.lc_sheet.specs.Sheets.{line_of};
ghost use Rattle.lc_sheet.specs.Values.{value_model};

use crate::cell_text::{make_value, make_wide, push_value};
use crate::shares::FULL_BAR;
use lc_sheet::{AttributeColumn, Column, Form, Lines, Side, Value};
use std::alloc::AllocError;

/// A cell of a line: a value, the side of its column at which the value is aligned, and how many cells of a terminal the bar of a whole
/// has.
#[derive(Clone, Copy)]
pub(crate) struct Cell<'a> {
    side: Side,
    bar: u8,
    value: Value<'a>,
}

/// Appends a character this many times.
pub(crate) fn push_copies(text: &mut String, c: char, count: usize) -> Result<(), AllocError>
    requires { c < 128 }
    ensures { OnOk result (string_bytes text.new ≡ string_bytes text.old ++ replicate count c) }
{
    let mut rest = count;
    'copies: while rest > 0 {
        text.push(c)?;
        rest -= 1;
    }
    Ok(())
}

impl<'a> Cell<'a> {
    /// Makes a cell with a value that is aligned at this side.
    pub(crate) fn new(side: Side, value: Value<'a>) -> Cell<'a>
        ensures { cell_model result ≡ cell_at full_bar side (value_model value.entry) }
    {
        Cell {
            side,
            bar: FULL_BAR,
            value,
        }
    }

    /// Makes the cell of the heading of a column.
    pub(crate) fn heading(attributes: &'a [AttributeColumn], column: Column) -> Cell<'a>
        ensures { cell_model result ≡ heading_cell attributes.entry.now column }
    {
        Cell::new(column.side(), Value::Name(column.heading(attributes)))
    }

    /// Makes the cell of a line in a column, where the bar of a whole has `bar` cells of a terminal.
    pub(crate) fn of<L: Lines>(line: &'a L::Line, form: Form, column: Column, bar: u8) -> Cell<'a>
        ensures { cell_model result ≡ cell_of bar column (L.value_in form line.entry.now column) }
    {
        Cell {
            side: column.side(),
            bar,
            value: L::value(line, form, column),
        }
    }

    /// Returns how wide a column must be for the cell, in columns of a terminal. A value that ends its line needs no width.
    pub(crate) fn width(&self, made: &mut String) -> Result<usize, AllocError>
        ensures { IfOk result (λ width. width ≡ width_at (cell_model self.now).side (cell_model self.now).text) }
    {
        match self.side {
            Side::End => Ok(0),
            Side::Left | Side::Right => make_wide(made, self.bar, &self.value),
        }
    }

    /// Returns whether the cell shows something: whether its text is not empty, or its value ends the line.
    pub(crate) fn is_shown(&self, made: &mut String) -> Result<bool, AllocError>
        ensures { IfOk result (λ shown. shown ≡ is_shown (cell_model self.now).side (cell_model self.now).text) }
    {
        match self.side {
            Side::End => Ok(true),
            Side::Left | Side::Right => {
                make_value(made, self.bar, &self.value)?;
                Ok(!made.as_str().is_empty())
            }
        }
    }

    /// Appends the cell, padded to this width. No blanks follow the last cell of a line, for which `others` is empty.
    pub(crate) fn push_before(
        &self,
        others: &[Cell<'_>],
        width: usize,
        text: &mut String,
        made: &mut String,
    ) -> Result<(), AllocError>
        ensures { OnOk result (string_bytes text.new ≡ string_bytes text.old
            ++ text_before (cells_of others.now) (cell_model self.now).side width (cell_model self.now).text) }
    {
        match self.side {
            Side::End => push_value(text, self.bar, &self.value),
            Side::Left => {
                let own = make_wide(made, self.bar, &self.value)?;
                text.push_str(made.as_str())?;
                if others.is_empty() {
                    return Ok(());
                }
                push_copies(text, ' ', width.saturating_sub(own))
            }
            Side::Right => {
                let own = make_wide(made, self.bar, &self.value)?;
                push_copies(text, ' ', width.saturating_sub(own))?;
                text.push_str(made.as_str())
            }
        }
    }
}

/// Sets the cells to the headings of columns.
pub(crate) fn set_headings<'a>(
    cells: &mut Vec<Cell<'a>>,
    attributes: &'a [AttributeColumn],
    columns: &[Column],
) -> Result<(), AllocError>
    ensures { OnOk result (cells_of cells.new.items ≡ heading_cells attributes.entry.now columns.now) }
{
    cells.clear();
    let mut rest = columns;
    'columns: while let Some((column, others)) = rest.split_first() {
        cells.push(Cell::heading(attributes, *column))?;
        rest = others;
    }
    Ok(())
}

/// Sets the cells to the values of a line in each column, where the bar of a whole has `bar` cells of a terminal.
pub(crate) fn set_cells<'l, L: Lines>(
    cells: &mut Vec<Cell<'l>>,
    line: &'l L::Line,
    form: Form,
    columns: &[Column],
    bar: u8,
) -> Result<(), AllocError>
    ensures { OnOk result (cells_of cells.new.items
        ≡ line_cells bar columns.now (line_of (L.value_in form) columns.now line.entry.now)) }
{
    cells.clear();
    let mut rest = columns;
    'columns: while let Some((column, others)) = rest.split_first() {
        cells.push(Cell::of::<L>(line, form, *column, bar))?;
        rest = others;
    }
    Ok(())
}
