//! Lines and sections of a sheet as JSON.

ghost use Rattle.std.specs.Prelude.{◌≡◌, ◌++◌, OnOk, flat_map};
ghost use Rattle.json.specs.Tree.{json_tokens};
ghost use Rattle.lc_sheet.specs.Sheets.{line_of, lines_of};
ghost use Rattle.lc_formats.specs.JsonLines.{object_of};
ghost use Rattle.lc_formats.specs.JsonSheets.{line_at, list_member, some_list};
ghost use Rattle.lc_formats.specs.JsonTokens.{member_tokens, members_tokens_of};

use crate::json_sides::write_change;
use crate::json_values::write_columns;
use crate::json_writer::JsonText;
use lc_sheet::{AttributeColumn, Column, Form, Lines, Section};
use std::alloc::AllocError;

/// Writes a line of a section as an object.
fn write_line<L: Lines>(
    text: &mut JsonText,
    attributes: &[AttributeColumn],
    compares: bool,
    form: Form,
    columns: &[Column],
    line: &L::Line,
) -> Result<(), AllocError>
    ensures { OnOk result (text.new
        ≡ text.old ++ json_tokens (object_of compares attributes.now columns.now (line_of (L.value_in form) columns.now line.now))) }
{
    if compares {
        return write_change::<L>(text, attributes, form, columns, line);
    }
    text.begin_object()?;
    write_columns::<L>(text, attributes, form, columns, line)?;
    text.end_object()?;
    Ok(())
}

fn write_lines<L: Lines>(
    text: &mut JsonText,
    attributes: &[AttributeColumn],
    compares: bool,
    form: Form,
    columns: &[Column],
    lines: &[L::Line],
) -> Result<(), AllocError>
    ensures { OnOk result (text.new ≡ text.old
        ++ flat_map (λ values. json_tokens (object_of compares attributes.now columns.now values))
        (lines_of (L.value_in form) columns.now lines.now)) }
{
    for line in lines {
        write_line::<L>(text, attributes, compares, form, columns, line)?;
    }
    Ok(())
}

/// Writes a member whose value is an array of the lines of a section.
pub(crate) fn write_list<L: Lines>(
    text: &mut JsonText,
    compares: bool,
    name: &str,
    section: &Section<'_, L>,
) -> Result<(), AllocError>
    ensures { OnOk result (text.new ≡ text.old ++ member_tokens (list_member compares name.now section.now)) }
{
    let (form, columns, lines) = section.parts();
    text.begin_list(name)?;
    write_lines::<L>(text, section.attributes(), compares, form, columns, lines)?;
    text.end_array()?;
    Ok(())
}

/// Writes the same member, if the sheet has the section.
pub(crate) fn write_some<L: Lines>(
    text: &mut JsonText,
    compares: bool,
    name: &str,
    section: &Option<Section<'_, L>>,
) -> Result<(), AllocError>
    ensures { OnOk result (text.new ≡ text.old ++ members_tokens_of (some_list compares name.now section.now)) }
{
    match section {
        None => Ok(()),
        Some(section) => write_list(text, compares, name, section),
    }
}

/// Writes a member whose value is the line at this index of a section, if the section has such a line.
pub(crate) fn write_line_at<L: Lines>(
    text: &mut JsonText,
    compares: bool,
    name: &str,
    index: usize,
    section: &Section<'_, L>,
) -> Result<(), AllocError>
    ensures { OnOk result (text.new ≡ text.old ++ members_tokens_of (line_at compares name.now index section.now)) }
{
    let (form, columns, lines) = section.parts();
    if let Some(line) = lines.get(index) {
        text.key(name)?;
        write_line::<L>(text, section.attributes(), compares, form, columns, line)?;
    }
    Ok(())
}
