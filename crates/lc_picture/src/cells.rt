//! The cells of a line of the bar chart, in HTML.

ghost use Rattle.std.specs.Prelude.{◌≡◌, ◌++◌, OnOk};
ghost use Rattle.lc_sheet.specs.Sheets.{line_of};
ghost use Rattle.lc_sheet.specs.Values.{value_model};
ghost use Rattle.lc_picture.specs.Chart.{bar_cell, cell, cells, name_cell};
ghost use Rattle.lc_picture.specs.Pieces.{text_of};

use crate::escaping::{push_html, push_name, push_path};
use crate::percents::push_percent;
use crate::sums::{push_count, push_number};
use lc_sheet::{Column, Form, Lines, Value, flag_word};
use std::alloc::AllocError;

/// Appends a text as the first cell of a line of the chart.
fn push_word_cell(text: &mut Vec<u8>, word: &[u8]) -> Result<(), AllocError>
    ensures { OnOk result (text.new.items ≡ text.old.items ++ text_of (name_cell word.now)) }
{
    text.extend_from_slice(b"<th>")?;
    push_html(text, word)?;
    text.extend_from_slice(b"</th>")?;
    Ok(())
}

/// Appends a cell with a bar and the space next to the bar. The browser divides the width of the cell between the two by their numbers.
fn push_bar_cell(text: &mut Vec<u8>, part: u128, whole: u128) -> Result<(), AllocError>
    ensures { OnOk result (text.new.items ≡ text.old.items ++ text_of (bar_cell part whole)) }
{
    text.extend_from_slice(b"<td><div class=\"bar\"><i style=\"--n:")?;
    push_number(text, part)?;
    text.extend_from_slice(b"\"></i><u style=\"--n:")?;
    push_number(text, whole.saturating_sub(part))?;
    text.extend_from_slice(b"\"></u></div></td>")?;
    Ok(())
}

fn push_value(text: &mut Vec<u8>, value: Value<'_>, made: &mut String) -> Result<(), AllocError>
    ensures { OnOk result (text.new.items ≡ text.old.items ++ text_of (cell (value_model value.entry))) }
{
    match value {
        Value::Missing => push_word_cell(text, b"-"),
        Value::Word(word) => push_word_cell(text, word.as_bytes()),
        Value::Flag(is_set) => push_word_cell(text, flag_word(is_set).as_bytes()),
        Value::Name(name) => {
            text.extend_from_slice(b"<th>")?;
            push_name(text, name, made)?;
            text.extend_from_slice(b"</th>")
        }
        Value::Path(path) => {
            text.extend_from_slice(b"<th>")?;
            push_path(text, path, made)?;
            text.extend_from_slice(b"</th>")
        }
        Value::Number(n) => {
            text.extend_from_slice(b"<td>")?;
            push_count(text, n, made)?;
            text.extend_from_slice(b"</td>")
        }
        Value::Share { part, whole } => {
            text.extend_from_slice(b"<td>")?;
            push_percent(text, part, whole)?;
            text.extend_from_slice(b"</td>")
        }
        Value::Bar { part, whole } => push_bar_cell(text, part, whole),
        Value::Summed | Value::Blank | Value::Difference { .. } | Value::Growth { .. } => {
            text.extend_from_slice(b"<td></td>")
        }
    }
}

/// Appends the cells that a line of the chart has in these columns, and ends the line.
pub(crate) fn push_cells<L: Lines>(
    text: &mut Vec<u8>,
    line: &L::Line,
    form: Form,
    columns: &[Column],
    made: &mut String,
) -> Result<(), AllocError>
    ensures { OnOk result (text.new.items ≡ text.old.items ++ text_of (cells (line_of (L.value_in form) columns.now line.now))) }
{
    let mut rest = columns;
    'columns: while let Some((column, others)) = rest.split_first() {
        push_value(text, L::value(line, form, *column), made)?;
        rest = others;
    }
    text.extend_from_slice(b"</tr>\n")
}
