//! Cases of the rows of a tree of directories, and of the directories of paths.

use crate::reports::report_of;
use crate::texts::{column, push_text};
use lc_rows::{ShownRow, directory_at, level_of, own_part, tree_rows};
use lc_sheet::Columns;
use lc_tests::cases::{number_of, push_bytes};
use std::alloc::{AllocError, Global};

/// Appends a row: its numbers, its extension if it has one, and its directory. A dot is the top directory.
fn push_row(answer: &mut String, row: &ShownRow<'_>) -> Result<(), AllocError> {
    let (files, lines) = (row.sums.files, row.sums.lines);
    let (blank, bytes) = (row.sums.blank, row.sums.bytes);
    write!(answer, "{files} {lines} {blank} {bytes}")?;
    if let Some(extension) = row.key.extension {
        answer.push_str(" .")?;
        push_bytes(answer, extension)?;
    }
    answer.push_str(" ")?;
    match row.key.directory {
        Some([]) => answer.push_str(".")?,
        Some(directory) => push_bytes(answer, directory)?,
        None => answer.push_str("no directory")?,
    }
    answer.push_str("\n")
}

pub(crate) fn rows_of_tree(alloc: Global, columns: &[&[u8]]) -> Result<String, AllocError> {
    let depth = u32::try_from(number_of(column(columns, 0))).unwrap_or(0);
    let by = Columns {
        dir: Some(1),
        ext: column(columns, 1) == b"dir,ext".as_slice(),
        ..Columns::NONE
    };
    let report = report_of(alloc, column(columns, 2))?;
    let rows = tree_rows(alloc, &report.files, by, depth)?;
    let mut answer = String::new(alloc);
    for row in &rows {
        push_row(&mut answer, row)?;
    }
    Ok(answer)
}

pub(crate) fn directory(alloc: Global, columns: &[&[u8]]) -> Result<String, AllocError> {
    let number = u32::try_from(number_of(column(columns, 0))).unwrap_or(0);
    let mut answer = String::new(alloc);
    push_text(&mut answer, directory_at(number, column(columns, 1)))?;
    Ok(answer)
}

pub(crate) fn level(alloc: Global, columns: &[&[u8]]) -> Result<String, AllocError> {
    let directory = column(columns, 0);
    let mut answer = format!(in alloc; "{}", level_of(directory))?;
    let part = own_part(directory);
    if !part.is_empty() {
        answer.push_str(" ")?;
    }
    push_text(&mut answer, part)?;
    Ok(answer)
}
