//! The columns that each section of a sheet has in each format.

ghost use Rattle.std.specs.Prelude.{◌≡◌, ◌++◌, if◌then◌else◌, [], IfOk, OnOk};
ghost use Rattle.lc_rows.specs.SheetColumns.{attribute_columns, column_if, file_columns, first_key, key_columns};
ghost use Rattle.lc_rows.specs.SheetColumns.{row_columns, shows_key, skipped_columns, sums_columns};
ghost use Rattle.std.specs.List.{find};
ghost use Rattle.std.specs.Option.{option_copied};
ghost use Rattle.lc_sheet.specs.Formats.{keeps_columns, share_columns};
ghost use Rattle.lc_sheet.specs.Keys.{report_keys};
ghost use Rattle.lc_sheet.specs.Sheets.{sheet_format};

use lc_sheet::{Column, Columns, Format, Key, Number, REPORT_KEYS, TableOptions};
use std::alloc::{AllocError, Global};

/// The columns of the numbers of rows and sums.
const NUMBERS: [Column; 4] = [
    Column::Number(Number::Files),
    Column::Number(Number::Lines),
    Column::Number(Number::Blank),
    Column::Number(Number::Bytes),
];

/// The columns of files in lists.
const LISTED_FILES: [Column; 6] = [
    Column::Key(Key::Text),
    Column::Key(Key::Eol),
    Column::Number(Number::Lines),
    Column::Number(Number::Blank),
    Column::Number(Number::Bytes),
    Column::Path,
];

/// The columns of files in records, after those of the path, of the directory and of attributes.
const RECORDED_FILES: [Column; 6] = [
    Column::Key(Key::Ext),
    Column::Key(Key::Text),
    Column::Key(Key::Eol),
    Column::Number(Number::Lines),
    Column::Number(Number::Blank),
    Column::Number(Number::Bytes),
];

/// The columns of skipped entries in lists, and below in records.
const LISTED_SKIPPED: [Column; 3] = [Column::Reason, Column::Place, Column::Entry];

const SKIPPED_RECORDS: [Column; 6] = [
    Column::Path,
    Column::Kind,
    Column::Reason,
    Column::File,
    Column::Line,
    Column::Attribute,
];

/// The columns of errors.
pub(crate) const LISTED_FAULTS: [Column; 2] = [Column::Fault, Column::Site];

/// Adds a column, if `kept` is true.
pub fn push_if(columns: &mut Vec<Column>, kept: bool, column: Column) -> Result<(), AllocError>
    ensures { OnOk result (columns.new.items ≡ columns.old.items ++ column_if kept column) }
{
    if kept {
        columns.push(column)?;
    }
    Ok(())
}

/// Returns whether rows have the column of a key of a report's rows: all of these columns if `all` is true, and otherwise only those that
/// rows are grouped by.
fn shows_key(all: bool, by: Columns, key: Key) -> bool
    ensures { result ≡ shows_key all by key }
{
    all || by.has(key)
}

fn first_shown(all: bool, by: Columns) -> Option<&'static Key>
    ensures { option_copied result ≡ find (shows_key all by) report_keys }
{
    REPORT_KEYS.iter().find(|key| shows_key(all, by, **key))
}

/// Returns the first key in whose column a format shows the values of rows, such as the extension. A line of sums shows its name in this
/// column.
pub fn first_key(format: Format, by: Columns) -> Key
    ensures { result ≡ first_key (keeps_columns format) by }
{
    if by.dir.is_some() {
        return Key::Dir;
    }
    if by.attributes > 0 {
        return Key::Attribute(0);
    }
    match first_shown(format.keeps_columns(), by) {
        Some(key) => *key,
        None => Key::Eol,
    }
}

/// Returns the columns of shares, if the options request them.
fn share_columns(options: &TableOptions) -> &'static [Column]
    ensures { result.now ≡ if options.now.share then share_columns (sheet_format options.now.output) else [] }
{
    if options.share {
        options.output.sheet_format().share_columns()
    } else {
        &[]
    }
}

/// Adds the columns of the attributes that rows are grouped by.
pub fn push_attributes(columns: &mut Vec<Column>, by: Columns) -> Result<(), AllocError>
    ensures { OnOk result (columns.new.items ≡ columns.old.items ++ attribute_columns by) }
{
    for place in 0..by.attributes {
        columns.push(Column::Key(Key::Attribute(place)))?;
    }
    Ok(())
}

/// Adds the columns of the rows' keys, as [`first_key`] chooses the first of them: all of a report's rows if `all` is true.
pub fn push_keys(columns: &mut Vec<Column>, all: bool, by: Columns) -> Result<(), AllocError>
    ensures { OnOk result (columns.new.items ≡ columns.old.items ++ key_columns all by) }
{
    push_if(columns, by.dir.is_some(), Column::Key(Key::Dir))?;
    push_attributes(columns, by)?;
    for key in &REPORT_KEYS {
        push_if(columns, shows_key(all, by, *key), Column::Key(*key))?;
    }
    Ok(())
}

/// Makes the columns of the rows of a table.
pub(crate) fn row_columns(alloc: Global, options: &TableOptions) -> Result<Vec<Column>, AllocError>
    ensures { IfOk result (λ columns. columns.items ≡ row_columns options.now) }
{
    let mut columns = Vec::new(alloc);
    let format = options.output.sheet_format();
    push_keys(&mut columns, format.keeps_columns(), options.by)?;
    columns.extend_from_slice(&NUMBERS)?;
    columns.extend_from_slice(share_columns(options))?;
    Ok(columns)
}

/// Returns the columns of sums in a table whose rows have these columns.
pub(crate) fn sums_columns(format: Format, rows: &[Column]) -> &[Column]
    ensures { result.now ≡ sums_columns format rows.entry.now }
{
    if format.has_records() { &NUMBERS } else { rows }
}

/// Makes the columns of a list of files. In records, files have the directory and the attributes that rows are grouped by.
pub(crate) fn file_columns(
    alloc: Global,
    format: Format,
    by: Columns,
) -> Result<Vec<Column>, AllocError>
    ensures { IfOk result (λ columns. columns.items ≡ file_columns format by) }
{
    let mut columns = Vec::new(alloc);
    if format.has_records() {
        columns.push(Column::Path)?;
        push_if(&mut columns, by.dir.is_some(), Column::Key(Key::Dir))?;
        push_attributes(&mut columns, by)?;
        columns.extend_from_slice(&RECORDED_FILES)?;
    } else {
        columns.extend_from_slice(&LISTED_FILES)?;
    }
    Ok(columns)
}

/// Returns the columns of a list of skipped entries.
pub(crate) fn skipped_columns(format: Format) -> &'static [Column]
    ensures { result.now ≡ skipped_columns format }
{
    if format.has_records() {
        &SKIPPED_RECORDS
    } else {
        &LISTED_SKIPPED
    }
}
