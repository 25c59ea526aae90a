//! The lines of a Markdown table.

ghost use Rattle.std.specs.Prelude.{◌≡◌, ◌++◌, map, OnOk};
ghost use Rattle.lc_formats.specs.Cells.{heading_value};
ghost use Rattle.lc_formats.specs.MarkdownCells.{bold, rule_cell, value_cell};
ghost use Rattle.lc_formats.specs.MarkdownText.{headings_with, line_with, rule_with};
ghost use Rattle.lc_sheet.specs.Sheets.{line_of};
ghost use Rattle.lc_sheet.specs.Values.{value_model};

use crate::cell_text::make_value;
use crate::markdown_escape::push_markdown;
use crate::shares::FULL_BAR;
use lc_sheet::{AttributeColumn, Column, Form, Lines, Side, Value};
use std::alloc::AllocError;

/// Whether the values of a line are printed plain or in bold.
#[derive(Clone, Copy)]
pub(crate) enum Weight {
    Plain,
    Bold,
}

fn push_bold(text: &mut Vec<u8>, shown: &[u8]) -> Result<(), AllocError>
    ensures { OnOk result (text.new.items ≡ text.old.items ++ bold shown.now) }
{
    if shown.is_empty() {
        return Ok(());
    }
    text.extend_from_slice(b"**")?;
    push_markdown(text, shown)?;
    text.extend_from_slice(b"**")
}

/// Appends a value and the bar that ends its cell.
fn push_value(
    text: &mut Vec<u8>,
    weight: Weight,
    value: &Value<'_>,
    made: &mut String,
) -> Result<(), AllocError>
    ensures { OnOk result (text.new.items ≡ text.old.items ++ value_cell weight (value_model value.now)) }
{
    make_value(made, FULL_BAR, &value)?;
    text.extend_from_slice(b" ")?;
    match weight {
        Weight::Plain => push_markdown(text, made.as_bytes())?,
        Weight::Bold => push_bold(text, made.as_bytes())?,
    }
    text.extend_from_slice(b" |")
}

/// Appends a line of these values.
pub(crate) fn push_values(
    text: &mut Vec<u8>,
    values: &[Value<'_>],
    made: &mut String,
) -> Result<(), AllocError>
    ensures { OnOk result (text.new.items ≡ text.old.items ++ line_with Weight.Plain (map value_model values.now)) }
{
    text.extend_from_slice(b"|")?;
    for value in values {
        push_value(text, Weight::Plain, value, made)?;
    }
    text.extend_from_slice(b"\n")
}

/// Appends a line of a table: the value in each column.
pub(crate) fn push_line<L: Lines>(
    text: &mut Vec<u8>,
    weight: Weight,
    line: &L::Line,
    form: Form,
    columns: &[Column],
    made: &mut String,
) -> Result<(), AllocError>
    ensures { OnOk result (text.new.items
        ≡ text.old.items ++ line_with weight (line_of (L.value_in form) columns.now line.now)) }
{
    text.extend_from_slice(b"|")?;
    let mut rest = columns;
    'columns: while let Some((column, others)) = rest.split_first() {
        push_value(text, weight, &L::value(line, form, *column), made)?;
        rest = others;
    }
    text.extend_from_slice(b"\n")
}

fn push_heading_line(
    text: &mut Vec<u8>,
    attributes: &[AttributeColumn],
    columns: &[Column],
    made: &mut String,
) -> Result<(), AllocError>
    ensures { OnOk result (text.new.items
        ≡ text.old.items ++ line_with Weight.Plain (map (heading_value attributes.now) columns.now)) }
{
    text.extend_from_slice(b"|")?;
    let mut rest = columns;
    'columns: while let Some((column, others)) = rest.split_first() {
        let heading = Value::Name(column.heading(attributes));
        push_value(text, Weight::Plain, &heading, made)?;
        rest = others;
    }
    text.extend_from_slice(b"\n")
}

fn rule_cell(side: Side) -> &'static [u8]
    ensures { result.now ≡ rule_cell side }
{
    match side {
        Side::Left | Side::End => b" --- |",
        Side::Right => b" ---: |",
    }
}

/// Appends the line below the headings of a table. It sets at which side each column is aligned.
fn push_rule(text: &mut Vec<u8>, columns: &[Column]) -> Result<(), AllocError>
    ensures { OnOk result (text.new.items ≡ text.old.items ++ rule_with columns.now) }
{
    text.extend_from_slice(b"|")?;
    let mut rest = columns;
    'columns: while let Some((column, others)) = rest.split_first() {
        text.extend_from_slice(rule_cell(column.side()))?;
        rest = others;
    }
    text.extend_from_slice(b"\n")
}

/// Appends the headings of a table, and the line below them.
pub(crate) fn push_headings(
    text: &mut Vec<u8>,
    attributes: &[AttributeColumn],
    columns: &[Column],
    made: &mut String,
) -> Result<(), AllocError>
    ensures { OnOk result (text.new.items ≡ text.old.items ++ headings_with attributes.now columns.now) }
{
    push_heading_line(text, attributes, columns, made)?;
    push_rule(text, columns)
}
