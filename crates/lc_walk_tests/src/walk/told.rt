//! Reports as text, in lines such as those of `lc count`.

use lc_tests::{push_faults, push_name, push_skipped};
use lc_walk::{FileLine, Report, TallyRow};
use std::alloc::{AllocError, Global};

/// Appends a line with the row's extension, state of the attribute `text` and line ends, and its numbers of files, lines, blank lines
/// and bytes.
pub(super) fn push_row(text: &mut String, row: &TallyRow) -> Result<(), AllocError> {
    match &row.ext {
        Some(ext) => {
            text.push_str(".")?;
            push_name(text, ext)?;
        }
        None => text.push_str("-")?,
    }
    let (state, eol) = (row.text.word().unwrap_or("-"), row.eol.as_str());
    write!(text, " {state} {eol} {}", row.files)?;
    write!(text, " {} {} {}\n", row.lines, row.blank, row.bytes)
}

fn push_file(text: &mut String, file: &FileLine) -> Result<(), AllocError> {
    let count = &file.count;
    let (state, eol) = (file.text().word().unwrap_or("-"), count.eol.as_str());
    write!(
        text,
        "file {state} {eol} {} {} {} ",
        count.lines, count.blank, count.bytes
    )?;
    push_name(text, &file.path)?;
    text.push_str("\n")
}

/// Returns the report as text: its rows, its numbers of directories and entries, its lists and its errors. If the total of files is not the
/// sum over the rows, the total comes after the rows.
pub(super) fn report_text(alloc: Global, report: &Report) -> Result<String, AllocError> {
    let mut text = String::new(alloc);
    let mut files: u64 = 0;
    for row in &report.rows {
        push_row(&mut text, row)?;
        files = files.wrapping_add(row.files);
    }
    if files != report.totals.files {
        write!(text, "total {} ", report.totals.files)?;
    }
    write!(
        text,
        "directories {} entries {}\n",
        report.directories, report.entries
    )?;
    for file in &report.files {
        push_file(&mut text, file)?;
    }
    push_skipped(&mut text, &report.skipped)?;
    push_faults(&mut text, &report.faults)?;
    Ok(text)
}
