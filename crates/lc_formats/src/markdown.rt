//! The text of a sheet as Markdown, with tables of GitHub Flavored Markdown.

ghost use Rattle.std.specs.Prelude.{◌≡◌, ◌++◌, IfOk, OnOk};
ghost use Rattle.lc_formats.specs.MarkdownText.{counts_below, lines_with, list_above, list_below, markdown_of};
ghost use Rattle.lc_formats.specs.MarkdownText.{section_table, summary_with};

use crate::markdown_line::{Weight, push_headings, push_line, push_values};
use crate::section_lines::{is_empty, shown_lines};
use lc_sheet::{Lines, Section, Sheet, Value};
use std::alloc::{AllocError, Global};

fn push_lines<L: Lines>(
    text: &mut Vec<u8>,
    weight: Weight,
    section: &Section<'_, L>,
    made: &mut String,
) -> Result<(), AllocError>
    ensures { OnOk result (text.new.items ≡ text.old.items ++ lines_with weight section.now.lines) }
{
    let (form, columns, lines) = section.parts();
    let mut rest = lines;
    'lines: while let Some((line, others)) = rest.split_first() {
        push_line::<L>(text, weight, line, form, columns, made)?;
        rest = others;
    }
    Ok(())
}

/// Appends a section as a table of headings and lines.
fn push_table<L: Lines>(
    text: &mut Vec<u8>,
    section: &Section<'_, L>,
    made: &mut String,
) -> Result<(), AllocError>
    ensures { OnOk result (text.new.items ≡ text.old.items ++ section_table section.now) }
{
    push_headings(text, section.attributes(), section.columns(), made)?;
    push_lines(text, Weight::Plain, section, made)
}

/// Appends the table of a list and an empty line. Appends nothing if the sheet does not have the list, or the list has no lines.
fn push_list_above<L: Lines>(
    text: &mut Vec<u8>,
    list: &Option<Section<'_, L>>,
    made: &mut String,
) -> Result<(), AllocError>
    ensures { OnOk result (text.new.items ≡ text.old.items ++ list_above list.now) }
{
    let Some(section) = list else {
        return Ok(());
    };
    if is_empty(section) {
        return Ok(());
    }
    push_table(text, section, made)?;
    text.extend_from_slice(b"\n")
}

/// Appends an empty line and the table of a list. Appends nothing if the sheet does not have the list, or the list has no lines.
fn push_list_below<L: Lines>(
    text: &mut Vec<u8>,
    list: &Option<Section<'_, L>>,
    made: &mut String,
) -> Result<(), AllocError>
    ensures { OnOk result (text.new.items ≡ text.old.items ++ list_below list.now) }
{
    let Some(section) = list else {
        return Ok(());
    };
    if is_empty(section) {
        return Ok(());
    }
    text.extend_from_slice(b"\n")?;
    push_table(text, section, made)
}

/// Appends the table of rows, and the sums over them in bold.
fn push_summary<R: Lines, T: Lines>(
    text: &mut Vec<u8>,
    rows: &Section<'_, R>,
    others: &Section<'_, T>,
    totals: &Section<'_, T>,
    made: &mut String,
) -> Result<(), AllocError>
    ensures { OnOk result (text.new.items ≡ text.old.items ++ summary_with rows.now others.now totals.now) }
{
    push_table(text, rows, made)?;
    push_lines(text, Weight::Bold, others, made)?;
    push_lines(text, Weight::Bold, totals, made)?;
    Ok(())
}

/// Appends an empty line, the number of directories, and the number of their entries, if the sheet has them.
fn push_counts(
    text: &mut Vec<u8>,
    directories: Option<u64>,
    entries: Option<u64>,
    made: &mut String,
) -> Result<(), AllocError>
    ensures { OnOk result (text.new.items ≡ text.old.items ++ counts_below directories entries) }
{
    let Some(directories) = directories else {
        return Ok(());
    };
    let directories = Value::Number(u128::from(directories));
    let Some(entries) = entries else {
        text.extend_from_slice(b"\n| directories |\n| ---: |\n")?;
        return push_values(text, &[directories], made);
    };
    let entries = Value::Number(u128::from(entries));
    text.extend_from_slice(b"\n| directories | entries |\n| ---: | ---: |\n")?;
    push_values(text, &[directories, entries], made)
}

/// Makes the text of a sheet as Markdown.
///
/// The lists of files and of skipped entries come first. Then come the rows, the sums over the rows in bold, and the number of directories.
/// The list of errors comes last. Names are escaped as [`push_visible`](lc_text::push_visible) escapes them.
pub(crate) fn markdown_text<R: Lines, T: Lines, F: Lines, S: Lines, E: Lines>(
    alloc: Global,
    sheet: &Sheet<'_, R, T, F, S, E>,
) -> Result<Vec<u8>, AllocError>
    ensures { IfOk result (λ text. text.items ≡ markdown_of sheet.now) }
{
    let mut text = Vec::new(alloc);
    let mut made = String::new(alloc);
    push_list_above(&mut text, &sheet.files, &mut made)?;
    push_list_above(&mut text, &sheet.skipped, &mut made)?;
    let totals = shown_lines(sheet.some_binary, &sheet.totals);
    push_summary(&mut text, &sheet.rows, &sheet.others, &totals, &mut made)?;
    push_counts(&mut text, sheet.directories, sheet.entries, &mut made)?;
    push_list_below(&mut text, &sheet.faults, &mut made)?;
    Ok(text)
}
