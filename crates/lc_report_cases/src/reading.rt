//! Cases of texts of reports: those that are read, and those that are refused.

use crate::options::{attributes_of, words_of};
use crate::reports::push_files;
use crate::texts::column;
use lc_reading::{ReadFault, read_reports};
use lc_walk::Report;
use std::alloc::{AllocError, Global};

/// Joins the texts of a case.
fn joined(alloc: Global, columns: &[&[u8]]) -> Result<Vec<u8>, AllocError> {
    let mut text = Vec::new(alloc);
    for part in columns.iter().skip(1) {
        text.extend_from_slice(part)?;
    }
    Ok(text)
}

fn found_in(alloc: Global, reports: &[Report]) -> Result<String, AllocError> {
    let mut found = format!(in alloc; "reports: {}\n", reports.len())?;
    for report in reports {
        push_files(&mut found, &report.files)?;
    }
    Ok(found)
}

pub(crate) fn read(alloc: Global, columns: &[&[u8]]) -> Result<String, AllocError> {
    let text = joined(alloc, columns)?;
    let attributes = attributes_of(alloc, &words_of(alloc, &[], column(columns, 0))?)?;
    match read_reports(alloc, &text, &attributes) {
        Ok(reports) => found_in(alloc, &reports),
        Err(ReadFault::Memory) => Err(AllocError),
        Err(fault) => format!(in alloc; "{fault}"),
    }
}
