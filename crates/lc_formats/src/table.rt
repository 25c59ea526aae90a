//! The text of a sheet in human-readable columns.

ghost use Rattle.std.specs.Prelude.{◌≡◌, ◌++◌, [], ◌∷◌, IfOk, OnOk, string_bytes};
ghost use Rattle.lc_formats.specs.Cells.{cells_of};
ghost use Rattle.lc_formats.specs.Columns.{lines_in, widths_of};
ghost use Rattle.lc_formats.specs.BarCells.{ends_in_bars};
ghost use Rattle.lc_formats.specs.TableText.{count_cells, counts_below, counts_of, list_listing, summary_bar, summary_of, summary_widths};
ghost use Rattle.lc_formats.specs.TableText.{table_of};

use crate::cells::{Cell, set_headings};
use crate::section_lines::{fit_lines, push_lines, push_listing, shown_lines};
use crate::shares::FULL_BAR;
use crate::widths::Widths;
use lc_sheet::{Column, Lines, Section, Sheet, Side, Value};
use std::alloc::{AllocError, Global};

/// Returns the widths of the columns of rows, with bars of at most `bar` cells.
fn summary_widths<'a, R: Lines, T: Lines>(
    alloc: Global,
    bar: u8,
    rows: &Section<'a, R>,
    others: &Section<'a, T>,
    totals: &Section<'a, T>,
    made: &mut String,
) -> Result<Widths, AllocError>
    ensures { IfOk result (λ widths. widths ≡ summary_widths bar rows.now others.now totals.now) }
{
    let mut cells = Vec::new(alloc);
    let mut widths = Widths::new(alloc);
    set_headings(&mut cells, rows.attributes(), rows.columns())?;
    widths.fit(&cells, made)?;
    fit_lines(&mut widths, bar, rows, &mut cells, made)?;
    fit_lines(&mut widths, bar, others, &mut cells, made)?;
    fit_lines(&mut widths, bar, totals, &mut cells, made)?;
    Ok(widths)
}

fn ends_in_bars(columns: &[Column]) -> bool
    ensures { result ≡ ends_in_bars columns.now }
{
    matches!(columns.last(), Some(Column::Bar))
}

/// Returns how many cells the longest bar has, and the widths of the columns of rows.
fn fit_summary<'a, R: Lines, T: Lines>(
    alloc: Global,
    rows: &Section<'a, R>,
    others: &Section<'a, T>,
    totals: &Section<'a, T>,
    made: &mut String,
) -> Result<(u8, Widths), AllocError>
    ensures bar { IfOk result (λ fitted. fitted.0 ≡ summary_bar rows.now others.now totals.now) }
    ensures widths { IfOk result (λ fitted. fitted.1 ≡ summary_widths fitted.0 rows.now others.now totals.now) }
{
    let widths = summary_widths(alloc, FULL_BAR, rows, others, totals, made)?;
    if !ends_in_bars(rows.columns()) {
        return Ok((FULL_BAR, widths));
    }
    let bar = widths.bar_cells();
    if bar == FULL_BAR {
        return Ok((FULL_BAR, widths));
    }
    // The lines are wider than a terminal. Only the width of the bars changes, but measuring all cells again is simple, and rare.
    let narrow = summary_widths(alloc, bar, rows, others, totals, made)?;
    Ok((bar, narrow))
}

/// Appends the headings of the rows, the rows, and the sums over them.
fn push_summary<'a, R: Lines, T: Lines>(
    alloc: Global,
    rows: &Section<'a, R>,
    others: &Section<'a, T>,
    totals: &Section<'a, T>,
    text: &mut String,
    made: &mut String,
) -> Result<(), AllocError>
    ensures { OnOk result (string_bytes text.new ≡ string_bytes text.old ++ summary_of rows.now others.now totals.now) }
{
    let (bar, widths) = fit_summary(alloc, rows, others, totals, made)?;
    let mut cells = Vec::new(alloc);
    set_headings(&mut cells, rows.attributes(), rows.columns())?;
    widths.push_line(&cells, text, made)?;
    widths.push_rule(bar, text)?;
    push_lines(&widths, bar, rows, &mut cells, text, made)?;
    push_lines(&widths, bar, others, &mut cells, text, made)?;
    widths.push_rule(bar, text)?;
    push_lines(&widths, bar, totals, &mut cells, text, made)?;
    Ok(())
}

fn count_cells(name: &'static str, count: u64) -> [Cell<'static>; 2]
    ensures { cells_of result ≡ count_cells name.now count }
{
    [
        Cell::new(Side::Left, Value::Word(name)),
        Cell::new(Side::Right, Value::Number(u128::from(count))),
    ]
}

fn push_directories(
    alloc: Global,
    directories: &[Cell<'_>],
    text: &mut String,
    made: &mut String,
) -> Result<(), AllocError>
    ensures { OnOk result (string_bytes text.new ≡ string_bytes text.old
        ++ lines_in (widths_of (cells_of directories.now ∷ [])) (cells_of directories.now ∷ [])) }
{
    let mut widths = Widths::new(alloc);
    widths.fit(directories, made)?;
    widths.push_line(directories, text, made)?;
    Ok(())
}

fn push_both(
    alloc: Global,
    directories: &[Cell<'_>],
    entries: &[Cell<'_>],
    text: &mut String,
    made: &mut String,
) -> Result<(), AllocError>
    ensures { OnOk result (string_bytes text.new ≡ string_bytes text.old
        ++ lines_in (widths_of (cells_of directories.now ∷ cells_of entries.now ∷ []))
        (cells_of directories.now ∷ cells_of entries.now ∷ [])) }
{
    let mut widths = Widths::new(alloc);
    widths.fit(directories, made)?;
    widths.fit(entries, made)?;
    widths.push_line(directories, text, made)?;
    widths.push_line(entries, text, made)?;
    Ok(())
}

fn push_numbers(
    alloc: Global,
    directories: u64,
    entries: Option<u64>,
    text: &mut String,
    made: &mut String,
) -> Result<(), AllocError>
    ensures { OnOk result (string_bytes text.new ≡ string_bytes text.old ++ counts_of directories entries) }
{
    let first = count_cells("directories", directories);
    match entries {
        None => push_directories(alloc, &first, text, made),
        Some(entries) => push_both(alloc, &first, &count_cells("entries", entries), text, made),
    }
}

/// Appends an empty line, the number of directories, and the number of their entries, if the sheet has them.
fn push_counts(
    alloc: Global,
    directories: Option<u64>,
    entries: Option<u64>,
    text: &mut String,
    made: &mut String,
) -> Result<(), AllocError>
    ensures { OnOk result (string_bytes text.new ≡ string_bytes text.old ++ counts_below directories entries) }
{
    let Some(directories) = directories else {
        return Ok(());
    };
    text.push_str("\n")?;
    push_numbers(alloc, directories, entries, text, made)
}

/// Appends a list, if the sheet has it.
fn push_list<L: Lines>(
    alloc: Global,
    list: &Option<Section<'_, L>>,
    text: &mut String,
    made: &mut String,
) -> Result<(), AllocError>
    ensures { OnOk result (string_bytes text.new ≡ string_bytes text.old ++ list_listing list.now) }
{
    match list {
        None => Ok(()),
        Some(section) => push_listing(alloc, section, text, made),
    }
}

/// Makes the text of a sheet in human-readable columns.
///
/// The lists of files, of skipped entries and of errors come first. The rows, the sums over the rows and the number of directories come
/// last, because a terminal shows the end of a long text. Paths are escaped as [`push_visible`](lc_text::push_visible) escapes them.
///
/// Bars in the last column of rows have at most 20 cells. They are shorter in a table that would be wider than 80 columns, and the column
/// is dropped if there is no room for 5 cells. Names and paths are never cut.
pub fn table_text<R: Lines, T: Lines, F: Lines, S: Lines, E: Lines>(
    alloc: Global,
    sheet: &Sheet<'_, R, T, F, S, E>,
) -> Result<Vec<u8>, AllocError>
    ensures { IfOk result (λ text. text.items ≡ table_of sheet.now) }
{
    let mut text = String::new(alloc);
    let mut made = String::new(alloc);
    push_list(alloc, &sheet.files, &mut text, &mut made)?;
    push_list(alloc, &sheet.skipped, &mut text, &mut made)?;
    push_list(alloc, &sheet.faults, &mut text, &mut made)?;
    let totals = shown_lines(sheet.some_binary, &sheet.totals);
    push_summary(
        alloc,
        &sheet.rows,
        &sheet.others,
        &totals,
        &mut text,
        &mut made,
    )?;
    push_counts(
        alloc,
        sheet.directories,
        sheet.entries,
        &mut text,
        &mut made,
    )?;
    Ok(text.into_bytes())
}
