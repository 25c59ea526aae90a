//! Cases of comparisons of two reports.

use crate::options::{attributes_of, refusal, words_of};
use crate::reports::report_of;
use crate::texts::{column, push_text};
use lc_arguments::{DiffRequest, Request, TableRequest};
use lc_changes::{ChangeOptions, ShownChanges, keep_changes};
use lc_formats::text;
use lc_sheet::{Columns, Format, Number, Order};
use lc_walk::Report;
use std::alloc::{AllocError, Global};

const BY_EXTENSION: Columns = Columns {
    ext: true,
    ..Columns::NONE
};

/// Returns the number whose largest changes come first. Without `--sort`, lines are in the order of their keys in each format.
fn sort_number(table: TableRequest) -> Option<Number> {
    match table.sort {
        Some(Order::Largest(number)) => Some(number),
        _ => None,
    }
}

fn options_of(asked: &DiffRequest<'_>) -> ChangeOptions {
    ChangeOptions {
        format: asked.table.output(Format::Tsv).sheet_format(),
        by: asked.table.by.unwrap_or(BY_EXTENSION),
        sort: sort_number(asked.table),
        top: asked.table.top,
        files: asked.table.files,
        all: asked.all,
    }
}

fn text_of(
    alloc: Global,
    asked: &DiffRequest<'_>,
    options: &ChangeOptions,
    old: &Report,
    new: &Report,
) -> Result<String, AllocError> {
    if !old.lists.files || !new.lists.files {
        return String::from_str(alloc, "no files");
    }
    let attributes = attributes_of(alloc, &asked.attributes)?;
    let shown = ShownChanges::of(alloc, old, new, options, &attributes)?;
    let text = text(alloc, options.format, &shown.comparison())?;
    let mut answer = String::new(alloc);
    answer.push_str(if shown.some_differ() {
        "they differ\n"
    } else {
        "the same\n"
    })?;
    push_text(&mut answer, &text)?;
    Ok(answer)
}

/// Compares the parts of two reports whose files changed in the asked ways.
fn compared(
    alloc: Global,
    asked: &DiffRequest<'_>,
    columns: &[&[u8]],
) -> Result<String, AllocError> {
    let mut old = report_of(alloc, column(columns, 1))?;
    let mut new = report_of(alloc, column(columns, 2))?;
    let options = options_of(asked);
    let attributes = options.by.attributes;
    keep_changes(alloc, asked.changes, attributes, &mut old, &mut new)?;
    text_of(alloc, asked, &options, &old, &new)
}

pub(crate) fn changes(alloc: Global, columns: &[&[u8]]) -> Result<String, AllocError> {
    let words = words_of(alloc, &["diff", "old", "new"], column(columns, 0))?;
    match Request::read(alloc, words.as_slice()) {
        Ok(Request::Diff(asked)) => compared(alloc, &asked, columns),
        other => refusal(alloc, other),
    }
}
