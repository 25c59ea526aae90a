//! The columns that each section of a comparison has in each format.

ghost use Rattle.std.specs.Prelude.{◌≡◌, ◌++◌, flat_map, IfOk, OnOk};
ghost use Rattle.lc_changes.specs.ChangeColumns.{by_report, changed_columns, changed_numbers, changed_sums_columns, file_change_columns};
ghost use Rattle.lc_changes.specs.ChangeColumns.{in_turn, recorded_values, with_change};

use lc_rows::{push_if, push_keys};
use lc_sheet::{Column, Columns, Compared, Format, Key, Number};
use std::alloc::{AllocError, Global};

/// The numbers of rows and sums.
const NUMBERS: [Compared; 4] = [
    Compared::Number(Number::Files),
    Compared::Number(Number::Lines),
    Compared::Number(Number::Blank),
    Compared::Number(Number::Bytes),
];

/// The numbers of the old report, and then the numbers of the new report.
const NUMBERS_BY_REPORT: [Column; 8] = [
    Column::Old(Compared::Number(Number::Files)),
    Column::Old(Compared::Number(Number::Lines)),
    Column::Old(Compared::Number(Number::Blank)),
    Column::Old(Compared::Number(Number::Bytes)),
    Column::New(Compared::Number(Number::Files)),
    Column::New(Compared::Number(Number::Lines)),
    Column::New(Compared::Number(Number::Blank)),
    Column::New(Compared::Number(Number::Bytes)),
];

/// The values of a file that are compared, besides its attributes.
const VALUES: [Compared; 5] = [
    Compared::Key(Key::Text),
    Compared::Key(Key::Eol),
    Compared::Number(Number::Lines),
    Compared::Number(Number::Blank),
    Compared::Number(Number::Bytes),
];

/// The columns of files in a list for reading.
const READ_FILES: [Column; 6] = [
    Column::Change,
    Column::New(Compared::Number(Number::Lines)),
    Column::Difference(Number::Lines),
    Column::New(Compared::Number(Number::Bytes)),
    Column::Difference(Number::Bytes),
    Column::Path,
];

/// Adds the columns of values: each value of the old report, followed by the same value of the new report.
fn push_in_turn(columns: &mut Vec<Column>, values: &[Compared]) -> Result<(), AllocError>
    ensures { OnOk result (columns.new.items ≡ columns.old.items ++ flat_map in_turn values.now) }
{
    for value in values {
        columns.extend_from_slice(&[Column::Old(*value), Column::New(*value)])?;
    }
    Ok(())
}

/// Adds the columns of values: those of the old report, and then those of the new report.
fn push_by_report(
    alloc: Global,
    columns: &mut Vec<Column>,
    values: &[Compared],
) -> Result<(), AllocError>
    ensures { OnOk result (columns.new.items ≡ columns.old.items ++ by_report values.now) }
{
    let mut news = Vec::new(alloc);
    for value in values {
        columns.push(Column::Old(*value))?;
        news.push(Column::New(*value))?;
    }
    columns.extend_from_slice(&news)
}

/// Adds the columns of a number of the new report and of its change. If `percent` is the same number, adds the change in per cent too.
fn push_with_change(
    columns: &mut Vec<Column>,
    percent: Number,
    number: Number,
) -> Result<(), AllocError>
    ensures { OnOk result (columns.new.items ≡ columns.old.items ++ with_change percent number) }
{
    let value = Compared::Number(number);
    columns.extend_from_slice(&[Column::New(value), Column::Difference(number)])?;
    push_if(columns, number == percent, Column::Growth(number))
}

fn push_numbers(
    columns: &mut Vec<Column>,
    format: Format,
    sort: Option<Number>,
) -> Result<(), AllocError>
    ensures { OnOk result (columns.new.items ≡ columns.old.items ++ changed_numbers format sort) }
{
    match format {
        Format::Tsv | Format::Csv => push_in_turn(columns, &NUMBERS),
        Format::Json => columns.extend_from_slice(&NUMBERS_BY_REPORT),
        Format::Table | Format::Markdown => {
            let percent = sort.unwrap_or(Number::Lines);
            push_with_change(columns, percent, Number::Files)?;
            push_with_change(columns, percent, Number::Lines)?;
            push_with_change(columns, percent, Number::Blank)?;
            push_with_change(columns, percent, Number::Bytes)
        }
    }
}

/// Makes the columns of the rows of a comparison. For reading, the change of the number that rows are sorted by is also shown in per cent,
/// or that of lines if rows are not sorted by a number.
pub(crate) fn changed_columns(
    alloc: Global,
    format: Format,
    sort: Option<Number>,
    by: Columns,
) -> Result<Vec<Column>, AllocError>
    ensures { IfOk result (λ columns. columns.items ≡ changed_columns format sort by) }
{
    let mut columns = Vec::new(alloc);
    push_keys(&mut columns, format.keeps_columns(), by)?;
    push_numbers(&mut columns, format, sort)?;
    Ok(columns)
}

/// Returns the columns of sums in a comparison whose rows have these columns.
pub(crate) fn changed_sums_columns(format: Format, rows: &[Column]) -> &[Column]
    ensures { result.now ≡ changed_sums_columns format rows.entry.now }
{
    if format.has_records() {
        &NUMBERS_BY_REPORT
    } else {
        rows
    }
}

/// Returns the values of files that are compared in records: their first attributes, and all others.
fn recorded_values(alloc: Global, attributes: u8) -> Result<Vec<Compared>, AllocError>
    ensures { IfOk result (λ values. values.items ≡ recorded_values attributes) }
{
    let mut values = Vec::new(alloc);
    for place in 0..attributes {
        values.push(Compared::Key(Key::Attribute(place)))?;
    }
    values.extend_from_slice(&VALUES)?;
    Ok(values)
}

/// Makes the columns of a comparison's list of files. In records, files have the directory and the attributes that rows are grouped by.
pub(crate) fn file_change_columns(
    alloc: Global,
    format: Format,
    by: Columns,
) -> Result<Vec<Column>, AllocError>
    ensures { IfOk result (λ columns. columns.items ≡ file_change_columns format by) }
{
    let values = recorded_values(alloc, by.attributes)?;
    let mut columns = Vec::new(alloc);
    match format {
        Format::Tsv => {
            columns.push(Column::Change)?;
            push_in_turn(&mut columns, &VALUES)?;
            columns.push(Column::Path)?;
        }
        Format::Csv => {
            columns.extend_from_slice(&[Column::Path, Column::Change])?;
            push_if(&mut columns, by.dir.is_some(), Column::Key(Key::Dir))?;
            columns.push(Column::Key(Key::Ext))?;
            push_in_turn(&mut columns, &values)?;
        }
        Format::Json => {
            columns.push(Column::Path)?;
            push_if(&mut columns, by.dir.is_some(), Column::Key(Key::Dir))?;
            columns.extend_from_slice(&[Column::Key(Key::Ext), Column::Change])?;
            push_by_report(alloc, &mut columns, &values)?;
        }
        Format::Table | Format::Markdown => columns.extend_from_slice(&READ_FILES)?,
    }
    Ok(columns)
}
