//! Values of a sheet as JSON, and those of a line.

ghost use Rattle.std.specs.Prelude.{◌≡◌, ◌++◌, OnOk};
ghost use Rattle.lc_sheet.specs.Sheets.{line_of};
ghost use Rattle.lc_sheet.specs.Values.{value_model};
ghost use Rattle.lc_formats.specs.JsonLines.{line_members, value_members};
ghost use Rattle.lc_formats.specs.JsonTokens.{members_tokens_of};

use crate::json_writer::JsonText;
use lc_sheet::{AttributeColumn, Column, Form, Lines, Value};
use std::alloc::AllocError;

/// Writes the member for a value: a member with this name. Values that JSON does not show, such as `Blank`, have no member.
#[inline(always)]
pub(crate) fn write_value(
    text: &mut JsonText,
    member: &str,
    value: &Value<'_>,
) -> Result<(), AllocError>
    ensures { OnOk result (text.new ≡ text.old ++ members_tokens_of (value_members member.now (value_model value.now))) }
{
    match *value {
        Value::Missing => text.null_member(member)?,
        Value::Word(word) => text.string_member(member, word)?,
        Value::Flag(is_set) => text.boolean_member(member, is_set)?,
        Value::Name(name) => text.name_member(member, name)?,
        Value::Path(path) => text.bytes_member(member, path)?,
        Value::Number(number) => text.integer_member(member, number)?,
        Value::Summed
        | Value::Blank
        | Value::Share { .. }
        | Value::Bar { .. }
        | Value::Difference { .. }
        | Value::Growth { .. } => {}
    }
    Ok(())
}

/// Writes the members for the values of a line in each column.
pub(crate) fn write_columns<L: Lines>(
    text: &mut JsonText,
    attributes: &[AttributeColumn],
    form: Form,
    columns: &[Column],
    line: &L::Line,
) -> Result<(), AllocError>
    ensures { OnOk result (text.new ≡ text.old
        ++ members_tokens_of (line_members attributes.now columns.now (line_of (L.value_in form) columns.now line.now))) }
{
    for column in columns {
        let member = column.word(attributes);
        write_value(text, member, &L::value(line, form, *column))?;
    }
    Ok(())
}
