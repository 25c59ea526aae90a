//! Reports as the columns of cases have them, and as answers show them.
//!
//! A report is a text in JSON, or lines of words. A number that no line names is 0, and the number `max` is the largest one:
//!
//! | Line | What the report has |
//! |---|---|
//! | `row .c - lf 2 10 1 80` | a row: the extension, the attribute `text`, the line ends; files, lines, blank lines, bytes |
//! | `no-ext`, `no-text`, `no-eol` | no such column of rows |
//! | `total 2 10 1 80`, `text 1 9 1 70`, `binary 1 1 0 10` | these totals, and these sums over text and over binary files |
//! | `directories 2`, `entries 7` | these numbers |
//! | `no-files`, `no-left` | no list of files, or of skipped entries |
//! | `file - lf 5 1 40 src/a.c` | a file: the attribute `text`, the line ends; lines, blank lines, bytes; the path |
//! | `file - lf 5 1 40 a.c set unset - =x` | a file with states of attributes: set, unset, unspecified, the value `x` |
//! | `left rule src/.gitignore:3 src/gen/` | a skipped directory, of which a rule of that file is the reason |
//! | `left attribute export-ignore a.c` | a skipped file; an `@` at the end is a special file, and `@/` a mounted directory |
//! | `fault read src` | a directory or a file that could not be read |
//! | `counted` | the sums over the files above this line, and a row for each of their keys |
//!
//! Extensions, paths and values have the escapes of columns, and a dot is the path of the top. An answer has a report in the same form, but
//! the file of a rule as its name below a star for each directory above it, such as `*/.gitignore`.

mod printed;
mod words;

use lc_reading::{ReadFault, read_reports};
use lc_rows::keep;
use lc_sheet::{Column, Columns, Comparison, Condition, Number, Test};
use lc_tests::cases::text_of;
use lc_walk::{ClassSums, Report, ReportLists, Sums};
pub(crate) use printed::{printed, push_files};
use std::alloc::{AllocError, Global};
use words::{fault, file, next, row, skipped, small_number, sums};

/// The condition that each file meets. A report is counted anew from the files that meet a condition on a number.
const ANY: Condition<'static> = Condition {
    column: Column::Number(Number::Lines),
    test: Test::Compared(Comparison::AtLeast, 0),
};

/// Returns an empty report that has both optional lists.
fn nothing(alloc: Global) -> Report {
    Report {
        rows: Vec::new(alloc),
        columns: Columns::ALL,
        totals: Sums::none(),
        classes: ClassSums {
            text: Sums::none(),
            binary: Sums::none(),
        },
        directories: 0,
        entries: 0,
        lists: ReportLists {
            files: true,
            left_out: true,
        },
        files: Vec::new(alloc),
        faults: Vec::new(alloc),
        skipped: Vec::new(alloc),
    }
}

fn put_line(alloc: Global, report: &mut Report, line: &str) -> Result<(), AllocError> {
    let mut words = line.split_ascii_whitespace();
    match next(&mut words) {
        "row" => report.rows.push(row(alloc, &mut words)?)?,
        "total" => report.totals = sums(&mut words),
        "text" => report.classes.text = sums(&mut words),
        "binary" => report.classes.binary = sums(&mut words),
        "no-ext" => report.columns.ext = false,
        "no-text" => report.columns.text = false,
        "no-eol" => report.columns.eol = false,
        "directories" => report.directories = small_number(&mut words),
        "entries" => report.entries = small_number(&mut words),
        "no-files" => report.lists.files = false,
        "no-left" => report.lists.left_out = false,
        "file" => report.files.push(file(alloc, &mut words)?)?,
        "fault" => report.faults.push(fault(alloc, &mut words)?)?,
        "left" => report.skipped.push(skipped(alloc, &mut words)?)?,
        "counted" => keep(alloc, &[ANY], report)?,
        _ => {}
    }
    Ok(())
}

/// Returns the last report of a text in JSON.
fn read_report(alloc: Global, text: &[u8]) -> Result<Report, AllocError> {
    match read_reports(alloc, text, &[]) {
        Ok(mut reports) => Ok(reports.pop().unwrap_or(nothing(alloc))),
        Err(ReadFault::Memory) => Err(AllocError),
        Err(_) => Ok(nothing(alloc)),
    }
}

/// Returns the report of a column.
pub(crate) fn report_of(alloc: Global, column: &[u8]) -> Result<Report, AllocError> {
    let lines = text_of(column);
    if lines.trim_start().starts_with('{') {
        return read_report(alloc, column);
    }
    let mut report = nothing(alloc);
    for line in lines.split(['\n', ';']) {
        put_line(alloc, &mut report, line)?;
    }
    Ok(report)
}
