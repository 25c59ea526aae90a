//! The text of a sheet as lines of fields, with tabs between the fields.

ghost use Rattle.std.specs.Prelude.{◌≡◌, ◌++◌, OnOk, IfOk, option_map};
ghost use Rattle.std.specs.List.{flat_map};
ghost use Rattle.lc_sheet.specs.Sheets.{line_of, lines_of};
ghost use Rattle.lc_sheet.specs.Values.{value_model};
ghost use Rattle.lc_formats.specs.Tsv.{field_of, header_line, list_lines, number_line, section_lines, tsv_of, values_line};
ghost use Rattle.lc_formats.specs.TsvParts.{after_tab};

use crate::numbers::push_digits;
use crate::section_lines::shown_lines;
use lc_sheet::{AttributeColumn, Column, Form, Lines, Section, Sheet, Value, flag_word};
use lc_text::{push_name, push_path};
use std::alloc::{AllocError, Global};

/// About how many bytes a line takes. Room for all lines is reserved together, so that the text is copied less while it grows.
const LINE_ROOM: usize = 64;

/// Appends a value as a field.
// It is inlined, so that a value that is made where its column is known is appended without being stored.
#[inline(always)]
fn push_value(text: &mut Vec<u8>, value: Value<'_>) -> Result<(), AllocError>
    ensures { OnOk result (text.new.items ≡ text.old.items ++ field_of (value_model value.entry)) }
{
    match value {
        Value::Missing => text.extend_from_slice(b"-"),
        Value::Summed => text.extend_from_slice(b"*"),
        Value::Word(word) => text.extend_from_slice(word.as_bytes()),
        Value::Flag(is_set) => text.extend_from_slice(flag_word(is_set).as_bytes()),
        Value::Name(name) => push_name(text, name),
        Value::Path(path) => push_path(text, path),
        Value::Number(number) => push_digits(text, number),
        Value::Blank
        | Value::Share { .. }
        | Value::Bar { .. }
        | Value::Difference { .. }
        | Value::Growth { .. } => Ok(()),
    }
}

/// Appends the value of a line in a column as a field.
#[inline(always)]
fn push_field<L: Lines>(
    text: &mut Vec<u8>,
    form: Form,
    line: &L::Line,
    column: Column,
) -> Result<(), AllocError>
    ensures { OnOk result (text.new.items ≡ text.old.items ++ field_of (L.value_in form line.now column)) }
{
    let value = L::value(line, form, column);
    push_value(text, value)
}

fn push_after_tab<L: Lines>(
    text: &mut Vec<u8>,
    form: Form,
    line: &L::Line,
    column: Column,
) -> Result<(), AllocError>
    ensures { OnOk result (text.new.items ≡ text.old.items ++ after_tab (field_of (L.value_in form line.now column))) }
{
    text.extend_from_slice(b"\t")?;
    push_field::<L>(text, form, line, column)
}

/// Appends the values of a line, with a tab before each.
fn push_fields<L: Lines>(
    text: &mut Vec<u8>,
    form: Form,
    line: &L::Line,
    columns: &[Column],
) -> Result<(), AllocError>
    ensures { OnOk result (text.new.items
        ≡ text.old.items ++ flat_map (λ column. after_tab (field_of (L.value_in form line.now column))) columns.now) }
{
    for column in columns {
        push_after_tab::<L>(text, form, line, *column)?;
    }
    Ok(())
}

/// Appends a line, with the word that names it before its values, if there is one.
fn push_line<L: Lines>(
    text: &mut Vec<u8>,
    tag: Option<&'static str>,
    form: Form,
    line: &L::Line,
    columns: &[Column],
) -> Result<(), AllocError>
    ensures { OnOk result (text.new.items ≡ text.old.items
        ++ values_line (option_map (λ t. t.now) tag.entry) (line_of (L.value_in form) columns.now line.now)) }
{
    if let Some(tag) = tag {
        text.extend_from_slice(tag.as_bytes())?;
        push_fields::<L>(text, form, line, columns)?;
        text.extend_from_slice(b"\n")?;
        return Ok(());
    }
    let Some((first, rest)) = columns.split_first() else {
        return text.extend_from_slice(b"\n");
    };
    push_field::<L>(text, form, line, *first)?;
    push_fields::<L>(text, form, line, rest)?;
    text.extend_from_slice(b"\n")?;
    Ok(())
}

fn push_lines<L: Lines>(
    text: &mut Vec<u8>,
    tag: Option<&'static str>,
    form: Form,
    columns: &[Column],
    lines: &[L::Line],
) -> Result<(), AllocError>
    ensures { OnOk result (text.new.items ≡ text.old.items
        ++ flat_map (values_line (option_map (λ t. t.now) tag.entry)) (lines_of (L.value_in form) columns.now lines.now)) }
{
    for line in lines {
        push_line::<L>(text, tag, form, line, columns)?;
    }
    Ok(())
}

fn push_section<L: Lines>(text: &mut Vec<u8>, section: &Section<'_, L>) -> Result<(), AllocError>
    ensures { OnOk result (text.new.items ≡ text.old.items ++ section_lines section.now) }
{
    let (form, columns, lines) = section.parts();
    text.reserve(lines.len().saturating_mul(LINE_ROOM))?;
    push_lines::<L>(text, section.tag(), form, columns, lines)
}

/// Appends the lines of a list, if the sheet has the list.
fn push_list<L: Lines>(text: &mut Vec<u8>, list: &Option<Section<'_, L>>) -> Result<(), AllocError>
    ensures { OnOk result (text.new.items ≡ text.old.items ++ list_lines list.now) }
{
    match list {
        None => Ok(()),
        Some(section) => push_section(text, section),
    }
}

fn push_header(
    text: &mut Vec<u8>,
    attributes: &[AttributeColumn],
    columns: &[Column],
) -> Result<(), AllocError>
    ensures { OnOk result (text.new.items ≡ text.old.items ++ header_line attributes.now columns.now) }
{
    let Some((first, rest)) = columns.split_first() else {
        return text.extend_from_slice(b"\n");
    };
    push_name(text, first.name(attributes))?;
    for column in rest {
        text.extend_from_slice(b"\t")?;
        push_name(text, column.name(attributes))?;
    }
    text.extend_from_slice(b"\n")?;
    Ok(())
}

/// Appends the line of a number, if the sheet has the number.
fn push_number_line(
    text: &mut Vec<u8>,
    tag: &'static str,
    number: Option<u64>,
) -> Result<(), AllocError>
    ensures { OnOk result (text.new.items ≡ text.old.items ++ number_line tag.now number) }
{
    let Some(number) = number else {
        return Ok(());
    };
    text.extend_from_slice(tag.as_bytes())?;
    text.extend_from_slice(b"\t")?;
    push_digits(text, u128::from(number))?;
    text.extend_from_slice(b"\n")
}

/// Makes the text of a sheet as lines of fields, with tabs between the fields.
///
/// The text has a header, a line for each shown row, a line with the sums over the rows that are cut off (if any), and a line with the
/// total. Next come the number of directories and the number of entries, and last the files, the skipped entries and the errors, each if
/// the sheet has them. Paths are escaped as [`escape`](lc_text::escape) escapes them.
pub(crate) fn tsv_text<R: Lines, T: Lines, F: Lines, S: Lines, E: Lines>(
    alloc: Global,
    sheet: &Sheet<'_, R, T, F, S, E>,
) -> Result<Vec<u8>, AllocError>
    ensures { IfOk result (λ text. text.items ≡ tsv_of sheet.now) }
{
    let mut text = Vec::new(alloc);
    push_header(&mut text, sheet.rows.attributes(), sheet.rows.columns())?;
    push_section(&mut text, &sheet.rows)?;
    push_section(&mut text, &sheet.others)?;
    push_section(&mut text, &shown_lines(false, &sheet.totals))?;
    push_number_line(&mut text, "directories", sheet.directories)?;
    push_number_line(&mut text, "entries", sheet.entries)?;
    push_list(&mut text, &sheet.files)?;
    push_list(&mut text, &sheet.skipped)?;
    push_list(&mut text, &sheet.faults)?;
    Ok(text)
}
