//! A line of a sheet that compares two reports as JSON: a value of one report is in the object `old` or `new`.

ghost use Rattle.std.specs.Prelude.{◌≡◌, ◌++◌, OnOk};
ghost use Rattle.json.specs.Tree.{json_tokens};
ghost use Rattle.lc_sheet.specs.Sheets.{line_of};
ghost use Rattle.lc_formats.specs.JsonLines.{change_object, column_in, lacks, members_in};
ghost use Rattle.lc_formats.specs.JsonLines.{part_members, side_value};
ghost use Rattle.lc_formats.specs.JsonTokens.{members_tokens_of};

use crate::json_values::write_value;
use crate::json_writer::JsonText;
use lc_sheet::{AttributeColumn, Column, Form, Lines, Value};
use std::alloc::AllocError;

/// One of the three parts of the JSON object for a line of a comparison.
#[derive(Clone, Copy)]
enum Part {
    /// The members that belong to neither report, such as `ext`.
    Own,
    /// The members in `old`: the values of the old report.
    Old,
    /// The members in `new`: the values of the new report.
    New,
}

impl Part {
    /// Returns the column whose name the value in `column` gets in this part, or `None` if the value belongs to another part.
    fn column(self, column: Column) -> Option<Column>
        ensures { result ≡ column_in self column }
    {
        match (self, column) {
            (Part::Own, Column::Old(_) | Column::New(_)) => None,
            (Part::Own, other) => Some(other),
            (Part::Old, Column::Old(compared)) => Some(compared.column()),
            (Part::New, Column::New(compared)) => Some(compared.column()),
            (Part::Old | Part::New, _) => None,
        }
    }
}

/// Returns whether a line has no value that belongs to this part.
fn lacks<L: Lines>(part: Part, form: Form, columns: &[Column], line: &L::Line) -> bool
    ensures { result ≡ lacks part columns.now (line_of (L.value_in form) columns.now line.now) }
{
    let mut rest = columns;
    'columns: while let Some((column, others)) = rest.split_first() {
        let is_own = part.column(*column).is_some();
        if is_own && !matches!(L::value(line, form, *column), Value::Missing | Value::Blank) {
            return false;
        }
        rest = others;
    }
    true
}

/// Writes the member for the value of a line in a column, if the value belongs to the part.
fn write_member<L: Lines>(
    text: &mut JsonText,
    attributes: &[AttributeColumn],
    part: Part,
    form: Form,
    column: Column,
    line: &L::Line,
) -> Result<(), AllocError>
    ensures { OnOk result (text.new
        ≡ text.old ++ members_tokens_of (members_in attributes.now (column_in part column) (L.value_in form line.now column))) }
{
    match part.column(column) {
        None => Ok(()),
        Some(named) => {
            let member = named.word(attributes);
            write_value(text, member, &L::value(line, form, column))
        }
    }
}

/// Writes the members of a line that belong to the part.
fn write_part<L: Lines>(
    text: &mut JsonText,
    attributes: &[AttributeColumn],
    part: Part,
    form: Form,
    columns: &[Column],
    line: &L::Line,
) -> Result<(), AllocError>
    ensures { OnOk result (text.new ≡ text.old
        ++ members_tokens_of (part_members attributes.now part columns.now (line_of (L.value_in form) columns.now line.now))) }
{
    let mut rest = columns;
    'columns: while let Some((column, others)) = rest.split_first() {
        write_member::<L>(text, attributes, part, form, *column, line)?;
        rest = others;
    }
    Ok(())
}

/// Writes the values of one report in a line as an object, or null if the report lacks the line.
fn write_side<L: Lines>(
    text: &mut JsonText,
    attributes: &[AttributeColumn],
    part: Part,
    form: Form,
    columns: &[Column],
    line: &L::Line,
) -> Result<(), AllocError>
    ensures { OnOk result (text.new
        ≡ text.old ++ json_tokens (side_value attributes.now part columns.now (line_of (L.value_in form) columns.now line.now))) }
{
    if lacks::<L>(part, form, columns, line) {
        return text.null();
    }
    text.begin_object()?;
    write_part::<L>(text, attributes, part, form, columns, line)?;
    text.end_object()?;
    Ok(())
}

/// Writes a line of a comparison as an object.
pub(crate) fn write_change<L: Lines>(
    text: &mut JsonText,
    attributes: &[AttributeColumn],
    form: Form,
    columns: &[Column],
    line: &L::Line,
) -> Result<(), AllocError>
    ensures { OnOk result (text.new
        ≡ text.old ++ json_tokens (change_object attributes.now columns.now (line_of (L.value_in form) columns.now line.now))) }
{
    text.begin_object()?;
    write_part::<L>(text, attributes, Part::Own, form, columns, line)?;
    text.key("old")?;
    write_side::<L>(text, attributes, Part::Old, form, columns, line)?;
    text.key("new")?;
    write_side::<L>(text, attributes, Part::New, form, columns, line)?;
    text.end_object()?;
    Ok(())
}
