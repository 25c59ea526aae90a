//! Cases of the languages of names, and of the files of reports.

use crate::reports::{push_files, report_of};
use crate::texts::column;
use lc_languages::{LANGUAGES, Languages, in_languages};
use lc_tests::cases::{number_of, push_bytes};
use std::alloc::{AllocError, Global};

pub(crate) fn language(alloc: Global, columns: &[&[u8]]) -> Result<String, AllocError> {
    let list = match column(columns, 1) {
        [] => LANGUAGES.as_bytes(),
        list => list,
    };
    let languages = Languages::new(alloc, list)?;
    let mut answer = String::new(alloc);
    let found = languages.language_of(column(columns, 0));
    push_bytes(&mut answer, found.unwrap_or(b"-"))?;
    Ok(answer)
}

pub(crate) fn languages(alloc: Global, columns: &[&[u8]]) -> Result<String, AllocError> {
    let report = report_of(alloc, column(columns, 2))?;
    let place = number_of(column(columns, 0));
    let report = in_languages(alloc, report, column(columns, 1), place)?;
    let mut answer = String::new(alloc);
    push_files(&mut answer, &report.files)?;
    Ok(answer)
}
