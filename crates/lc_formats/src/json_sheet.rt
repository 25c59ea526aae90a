//! The text of a sheet as JSON.

ghost use Rattle.std.specs.Prelude.{◌≡◌, ◌++◌, IfOk, OnOk};
ghost use Rattle.json.specs.Tree.{json_tokens};
ghost use Rattle.lc_formats.specs.JsonSheets.{json_of, json_text_of, list_members, number_member, number_members, totals_members};
ghost use Rattle.lc_formats.specs.JsonText.{IsDocument};
ghost use Rattle.lc_formats.specs.JsonTokens.{members_tokens_of};

use crate::json_lists::{write_line_at, write_list, write_some};
use crate::json_writer::JsonText;
use lc_sheet::{Lines, Section, Sheet};
use std::alloc::{AllocError, Global};

fn write_totals<T: Lines>(
    text: &mut JsonText,
    compares: bool,
    totals: &Section<'_, T>,
) -> Result<(), AllocError>
    ensures { OnOk result (text.new ≡ text.old ++ members_tokens_of (totals_members compares totals.now)) }
{
    write_line_at(text, compares, "total", 0, totals)?;
    write_line_at(text, compares, "text", 1, totals)?;
    write_line_at(text, compares, "binary", 2, totals)?;
    Ok(())
}

/// Writes the member of a number, if the sheet has the number.
fn write_number(text: &mut JsonText, name: &str, number: Option<u64>) -> Result<(), AllocError>
    ensures { OnOk result (text.new ≡ text.old ++ members_tokens_of (number_member name.now number)) }
{
    if let Some(number) = number {
        text.integer_member(name, u128::from(number))?;
    }
    Ok(())
}

fn write_numbers<R: Lines, T: Lines, F: Lines, S: Lines, E: Lines>(
    text: &mut JsonText,
    sheet: &Sheet<'_, R, T, F, S, E>,
) -> Result<(), AllocError>
    ensures { OnOk result (text.new ≡ text.old ++ members_tokens_of (number_members sheet.now)) }
{
    write_line_at(text, sheet.compares, "others", 0, &sheet.others)?;
    write_totals(text, sheet.compares, &sheet.totals)?;
    write_number(text, "directories", sheet.directories)?;
    write_number(text, "entries", sheet.entries)?;
    Ok(())
}

fn write_lists<R: Lines, T: Lines, F: Lines, S: Lines, E: Lines>(
    text: &mut JsonText,
    sheet: &Sheet<'_, R, T, F, S, E>,
) -> Result<(), AllocError>
    ensures { OnOk result (text.new ≡ text.old ++ members_tokens_of (list_members sheet.now)) }
{
    write_some(text, sheet.compares, "files", &sheet.files)?;
    write_some(text, sheet.compares, "left", &sheet.skipped)?;
    write_some(text, sheet.compares, "faults", &sheet.faults)?;
    Ok(())
}

fn write_sheet<R: Lines, T: Lines, F: Lines, S: Lines, E: Lines>(
    text: &mut JsonText,
    sheet: &Sheet<'_, R, T, F, S, E>,
) -> Result<(), AllocError>
    ensures { OnOk result (text.new ≡ text.old ++ json_tokens (json_of sheet.now)) }
{
    text.begin_object()?;
    write_list(text, sheet.compares, "rows", &sheet.rows)?;
    write_numbers(text, sheet)?;
    write_lists(text, sheet)?;
    text.end_object()?;
    Ok(())
}

/// Makes the text of a sheet as one JSON object on one line.
///
/// A list of lines, such as the rows, is an array of objects. A line of sums, such as the total, is an object. Each value is a member with
/// the name of the value's column. There is no member for a column that does not apply to the line, or for a column over which the line is
/// summed. In a comparison, a line has the compared values in two objects, `old` and `new`; if a report lacks a file, its object in the
/// file's line is null. Bytes that are not UTF-8 are an array of numbers, and the name of this array ends with `_bytes`.
pub(crate) fn json_text<R: Lines, T: Lines, F: Lines, S: Lines, E: Lines>(
    alloc: Global,
    sheet: &Sheet<'_, R, T, F, S, E>,
) -> Result<Vec<u8>, AllocError>
    ensures text { IfOk result (λ text. text.items ≡ json_text_of sheet.now) }
    ensures document { IfOk result (λ text. IsDocument (json_of sheet.now) text.items) }
{
    let mut text = JsonText::new(alloc);
    write_sheet(&mut text, sheet)?;
    text.into_line()
}
