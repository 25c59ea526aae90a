//! Cases of the texts that are printed of reports: tables in each format, paths, trees and pages.

use crate::options::{attributes_of, refusal, words_of};
use crate::reports::report_of;
use crate::texts::{column, push_text};
use lc_arguments::{Request, SumRequest};
use lc_formats::{paths_text, text};
use lc_picture::{page, tree};
use lc_rows::{ReportSheet, Shown, keep, sort_files};
use lc_sheet::{Format, Output, TableOptions};
use lc_tests::cases::text_of;
use lc_text::PathEnd;
use lc_walk::Report;
use std::alloc::{AllocError, Global};

/// Returns the paths of a sheet, and the lines about those that are refused.
fn paths_of(alloc: Global, null: bool, sheet: &ReportSheet<'_>) -> Result<Vec<u8>, AllocError> {
    let end = if null {
        PathEnd::Nul
    } else {
        PathEnd::LineFeed
    };
    let mut paths = paths_text(alloc, end, sheet)?;
    paths.text.extend_from_slice(paths.refused.as_bytes())?;
    Ok(paths.text)
}

fn sheet_text(
    alloc: Global,
    asked: &SumRequest<'_>,
    options: &TableOptions,
    report: &Report,
) -> Result<Vec<u8>, AllocError> {
    if options.by.are_of_files() && !report.lists.files {
        return b"no files".to_vec(alloc);
    }
    let attributes = attributes_of(alloc, &asked.attributes)?;
    let shown = Shown::of(alloc, report, options, &attributes)?;
    match options.output {
        Output::Paths => paths_of(alloc, asked.null, &shown.sheet()),
        output => text(alloc, output.sheet_format(), &shown.sheet()),
    }
}

/// Returns the text that is printed of the part of a report that meets the conditions.
fn printed(
    alloc: Global,
    asked: &SumRequest<'_>,
    mut report: Report,
    columns: &[&[u8]],
) -> Result<Vec<u8>, AllocError> {
    keep(alloc, &asked.conditions, &mut report)?;
    let options = asked.table.options(Format::Tsv, report.columns);
    sort_files(options.sort, &mut report.files);
    let title = column(columns, 2);
    match options.output {
        Output::Picture => page(alloc, title, column(columns, 3), &report, options.sort),
        Output::Tree => tree(
            alloc,
            title,
            &report,
            options.sort,
            options.by.dir.unwrap_or(1),
        ),
        Output::Text(_) | Output::Paths => sheet_text(alloc, asked, &options, &report),
    }
}

/// Returns the part of a text after the first `from` and before the next `to`. If `to` is empty, the part ends with the text.
fn part_of<'a>(text: &'a str, from: &str, to: &str) -> &'a str {
    let (_, rest) = text.split_once(from).unwrap_or(("", ""));
    match rest.split_once(to) {
        Some((part, _)) if !to.is_empty() => part,
        _ => rest,
    }
}

/// Returns the asked part of the text that is printed of a report.
fn answer_of(
    alloc: Global,
    asked: &SumRequest<'_>,
    report: Report,
    columns: &[&[u8]],
) -> Result<String, AllocError> {
    let text = printed(alloc, asked, report, columns)?;
    let mut answer = String::new(alloc);
    push_text(&mut answer, &text)?;
    let (from, to) = (text_of(column(columns, 4)), text_of(column(columns, 5)));
    String::from_str(alloc, part_of(&answer, from, to))
}

pub(crate) fn shown(alloc: Global, columns: &[&[u8]]) -> Result<String, AllocError> {
    let words = words_of(alloc, &["sum"], column(columns, 0))?;
    let report = report_of(alloc, column(columns, 1))?;
    match Request::read(alloc, words.as_slice()) {
        Ok(Request::Sum(asked)) => answer_of(alloc, &asked, report, columns),
        other => refusal(alloc, other),
    }
}
