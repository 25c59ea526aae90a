//! Cases of joined reports, of reports with a name in front of their paths, and of sums of reports.

use crate::options::{refusal, words_of};
use crate::reports::{printed, report_of};
use crate::texts::column;
use lc_arguments::Request;
use lc_reports::{JoinFault, Needs, Part, SumFault, joined, named, summed};
use lc_sheet::Columns;
use lc_tests::cases::{push_words, text_of};
use std::alloc::{AllocError, Global};

pub(crate) fn joined_reports(alloc: Global, columns: &[&[u8]]) -> Result<String, AllocError> {
    let mut reports = Vec::new(alloc);
    for column in columns {
        reports.push(report_of(alloc, column)?)?;
    }
    match joined(alloc, reports) {
        Ok(report) => printed(alloc, &report),
        Err(JoinFault::Memory) => Err(AllocError),
        Err(fault) => format!(in alloc; "{fault}"),
    }
}

pub(crate) fn named_report(alloc: Global, columns: &[&[u8]]) -> Result<String, AllocError> {
    let report = report_of(alloc, column(columns, 1))?;
    let report = named(alloc, column(columns, 0), report)?;
    printed(alloc, &report)
}

/// The names of the reports of a sum.
const ORIGINS: [&str; 4] = ["a", "b", "c", "d"];

fn parts_of(alloc: Global, columns: &[&[u8]]) -> Result<Vec<Part<'static>>, AllocError> {
    let mut parts = Vec::new(alloc);
    for (column, origin) in columns.iter().skip(1).zip(ORIGINS) {
        let report = report_of(alloc, column)?;
        parts.push(Part { origin, report })?;
    }
    Ok(parts)
}

fn has(words: &str, word: &str) -> bool {
    words.split_ascii_whitespace().any(|other| other == word)
}

/// Reads what a sum needs: columns, some column that all reports have (`some`), `files`, skipped entries (`left`).
fn needs_in(words: &str) -> Needs {
    Needs {
        columns: Columns {
            ext: has(words, "ext"),
            text: has(words, "text"),
            eol: has(words, "eol"),
            ..Columns::NONE
        },
        some_column: has(words, "some"),
        files: has(words, "files"),
        left_out: has(words, "left"),
    }
}

pub(crate) fn summed_reports(alloc: Global, columns: &[&[u8]]) -> Result<String, AllocError> {
    let parts = parts_of(alloc, columns)?;
    match summed(alloc, parts, needs_in(text_of(column(columns, 0)))) {
        Ok(report) => printed(alloc, &report),
        Err(SumFault::Memory) => Err(AllocError),
        Err(fault) => format!(in alloc; "{fault:?}"),
    }
}

/// Returns the words for what a sum needs.
fn words_for(alloc: Global, needs: &Needs) -> Result<String, AllocError> {
    let mut words = String::new(alloc);
    push_words(
        &mut words,
        &[
            (needs.columns.ext, "ext "),
            (needs.columns.text, "text "),
            (needs.columns.eol, "eol "),
            (needs.some_column, "some "),
            (needs.files, "files "),
            (needs.left_out, "left "),
        ],
    )?;
    String::from_str(alloc, words.trim_end())
}

pub(crate) fn needs_of(alloc: Global, columns: &[&[u8]]) -> Result<String, AllocError> {
    let words = words_of(alloc, &["sum"], column(columns, 0))?;
    match Request::read(alloc, words.as_slice()) {
        Ok(Request::Sum(asked)) => {
            let by = asked.table.by;
            let needs = Needs::of(by, &asked.conditions, asked.table.files, asked.left_out);
            words_for(alloc, &needs)
        }
        other => refusal(alloc, other),
    }
}
