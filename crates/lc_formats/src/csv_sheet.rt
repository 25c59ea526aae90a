//! The text of a sheet as CSV.

ghost use Rattle.std.specs.Prelude.{◌≡◌, [], ◌∷◌, ◌++◌, map, IfOk, OnOk};
ghost use Rattle.std.specs.List.{flat_map};
ghost use Rattle.lc_formats.specs.Csv.{csv_of, csv_section, field_of, header_field, records_of};
ghost use Rattle.lc_formats.specs.CsvText.{record_text};
ghost use Rattle.lc_sheet.specs.Sheets.{line_of, lines_of};
ghost use Rattle.lc_sheet.specs.Values.{value_model};

use crate::csv_records::{CsvText, Fields};
use lc_sheet::{AttributeColumn, Column, Form, Lines, Section, Sheet, Value, flag_word};
use std::alloc::{AllocError, Global};

/// Appends a value as a field.
// It is inlined, so that a value that is made where its column is known is appended without being stored.
#[inline(always)]
fn push_value(fields: &mut Fields, value: Value<'_>) -> Result<(), AllocError>
    ensures { OnOk result (fields.new ≡ fields.old ++ field_of (value_model value.entry) ∷ []) }
{
    match value {
        Value::Word(word) => fields.push(word.as_bytes()),
        Value::Flag(is_set) => fields.push(flag_word(is_set).as_bytes()),
        Value::Name(name) => fields.push_name(name),
        Value::Path(path) => fields.push(path),
        Value::Number(number) => fields.push_number(number),
        Value::Missing
        | Value::Summed
        | Value::Blank
        | Value::Share { .. }
        | Value::Bar { .. }
        | Value::Difference { .. }
        | Value::Growth { .. } => fields.push(b""),
    }
}

fn set_fields<L: Lines>(
    fields: &mut Fields,
    form: Form,
    line: &L::Line,
    columns: &[Column],
) -> Result<(), AllocError>
    ensures { OnOk result (fields.new ≡ map field_of (line_of (L.value_in form) columns.now line.now)) }
{
    fields.clear();
    for column in columns {
        push_value(fields, L::value(line, form, *column))?;
    }
    Ok(())
}

/// Appends a record of the names of columns.
fn push_headings(
    text: &mut CsvText,
    fields: &mut Fields,
    attributes: &[AttributeColumn],
    columns: &[Column],
) -> Result<(), AllocError>
    ensures { OnOk result (text.new ≡ text.old ++ record_text (map (header_field attributes.now) columns.now)) }
{
    fields.clear();
    for column in columns {
        fields.push_name(column.name(attributes))?;
    }
    text.push_record(fields)
}

/// Appends a record for each line.
fn push_lines<L: Lines>(
    text: &mut CsvText,
    fields: &mut Fields,
    form: Form,
    columns: &[Column],
    lines: &[L::Line],
) -> Result<(), AllocError>
    ensures { OnOk result (text.new
        ≡ text.old ++ flat_map record_text (map (map field_of) (lines_of (L.value_in form) columns.now lines.now))) }
{
    for line in lines {
        set_fields::<L>(fields, form, line, columns)?;
        text.push_record(fields)?;
    }
    Ok(())
}

fn push_section<L: Lines>(
    text: &mut CsvText,
    fields: &mut Fields,
    section: &Section<'_, L>,
) -> Result<(), AllocError>
    ensures { OnOk result (text.new ≡ text.old ++ flat_map record_text (records_of section.now)) }
{
    let (form, columns, lines) = section.parts();
    push_headings(text, fields, section.attributes(), columns)?;
    push_lines::<L>(text, fields, form, columns, lines)
}

/// Appends the records of one section: of the files if the sheet lists files, otherwise of the skipped entries if it lists these, and
/// otherwise of the rows.
fn push_records<R: Lines, T: Lines, F: Lines, S: Lines, E: Lines>(
    text: &mut CsvText,
    fields: &mut Fields,
    sheet: &Sheet<'_, R, T, F, S, E>,
) -> Result<(), AllocError>
    ensures { OnOk result (text.new ≡ text.old ++ flat_map record_text (records_of (csv_section sheet.now))) }
{
    if let Some(files) = &sheet.files {
        return push_section(text, fields, files);
    }
    if let Some(skipped) = &sheet.skipped {
        return push_section(text, fields, skipped);
    }
    push_section(text, fields, &sheet.rows)
}

/// Makes the text of a sheet as CSV (RFC 4180): the names of columns, and below them records of one kind.
///
/// If the sheet lists files, each file is a record. If the sheet lists no files, but skipped entries, each skipped entry is a record.
/// Otherwise each row is a record. Names and paths are not escaped. Fields are quoted where necessary.
pub(crate) fn csv_text<R: Lines, T: Lines, F: Lines, S: Lines, E: Lines>(
    alloc: Global,
    sheet: &Sheet<'_, R, T, F, S, E>,
) -> Result<Vec<u8>, AllocError>
    ensures { IfOk result (λ text. text.items ≡ csv_of sheet.now) }
{
    let mut text = CsvText::new(alloc);
    let mut fields = Fields::new(alloc);
    push_records(&mut text, &mut fields, sheet)?;
    text.into_text()
}
