//! Reports as answers show them.

use lc_level::AttributeState;
use lc_tests::cases::{push_bytes, push_words};
use lc_tests::{push_faults, push_skipped};
use lc_walk::{FileLine, Report, Sums, TallyRow};
use std::alloc::{AllocError, Global};

fn push_row(answer: &mut String, row: &TallyRow) -> Result<(), AllocError> {
    match &row.ext {
        Some(ext) => {
            answer.push_str("row .")?;
            push_bytes(answer, ext)?;
        }
        None => answer.push_str("row -")?,
    }
    let (text, eol) = (row.text.word().unwrap_or("-"), row.eol.as_str());
    let (files, lines, blank, bytes) = (row.files, row.lines, row.blank, row.bytes);
    write!(answer, " {text} {eol} {files} {lines} {blank} {bytes}\n")
}

fn push_rows(answer: &mut String, rows: &[TallyRow]) -> Result<(), AllocError> {
    for row in rows {
        push_row(answer, row)?;
    }
    Ok(())
}

fn push_sums(answer: &mut String, name: &str, sums: Sums) -> Result<(), AllocError> {
    if sums == Sums::none() {
        return Ok(());
    }
    let (files, lines, blank, bytes) = (sums.files, sums.lines, sums.blank, sums.bytes);
    write!(answer, "{name} {files} {lines} {blank} {bytes}\n")
}

fn push_number(answer: &mut String, name: &str, number: u64) -> Result<(), AllocError> {
    if number == 0 {
        return Ok(());
    }
    write!(answer, "{name} {number}\n")
}

/// Appends the columns and the lists that a report lacks.
fn push_lacking(answer: &mut String, report: &Report) -> Result<(), AllocError> {
    push_words(
        answer,
        &[
            (!report.columns.ext, "no-ext\n"),
            (!report.columns.text, "no-text\n"),
            (!report.columns.eol, "no-eol\n"),
            (!report.lists.files, "no-files\n"),
            (!report.lists.left_out, "no-left\n"),
        ],
    )
}

fn push_state(answer: &mut String, state: &AttributeState) -> Result<(), AllocError> {
    match state {
        AttributeState::Unspecified => answer.push_str(" -"),
        AttributeState::Set => answer.push_str(" set"),
        AttributeState::Unset => answer.push_str(" unset"),
        AttributeState::Value(value) => {
            answer.push_str(" =")?;
            push_bytes(answer, value)
        }
    }
}

fn push_file(answer: &mut String, file: &FileLine) -> Result<(), AllocError> {
    let (text, eol) = (file.text().word().unwrap_or("-"), file.count.eol.as_str());
    let (lines, blank, bytes) = (file.count.lines, file.count.blank, file.count.bytes);
    write!(answer, "file {text} {eol} {lines} {blank} {bytes} ")?;
    push_bytes(answer, &file.path)?;
    for state in &file.attributes.asked {
        push_state(answer, state)?;
    }
    answer.push_str("\n")
}

/// Appends a line for each file of a report.
pub(crate) fn push_files(answer: &mut String, files: &[FileLine]) -> Result<(), AllocError> {
    for file in files {
        push_file(answer, file)?;
    }
    Ok(())
}

/// Returns all of a report.
pub(crate) fn printed(alloc: Global, report: &Report) -> Result<String, AllocError> {
    let mut answer = String::new(alloc);
    push_rows(&mut answer, &report.rows)?;
    push_sums(&mut answer, "total", report.totals)?;
    push_sums(&mut answer, "text", report.classes.text)?;
    push_sums(&mut answer, "binary", report.classes.binary)?;
    push_number(&mut answer, "directories", report.directories)?;
    push_number(&mut answer, "entries", report.entries)?;
    push_lacking(&mut answer, report)?;
    push_files(&mut answer, &report.files)?;
    push_skipped(&mut answer, &report.skipped)?;
    push_faults(&mut answer, &report.faults)?;
    Ok(answer)
}
