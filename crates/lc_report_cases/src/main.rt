//! The program `lc_report_cases` reads cases of reports, each with the expected answer. It prints each case that has another answer, with
//! this answer, and how many cases it has read.
//!
//! A column `@NAME` is the contents of the file NAME. A column REPORT has the lines of a report (see `reports`), with semicolons between
//! them, or is a report in JSON. OPTIONS are those of `lc sum` or of `lc diff`.
//!
//! | Case | Answer |
//! |---|---|
//! | `read \| ATTRIBUTES \| TEXT..` | how many reports the joined texts have, and the files of these; or why they are refused |
//! | `joined \| REPORT..` | the joined report |
//! | `named \| NAME \| REPORT` | the report with the name in front of its paths |
//! | `summed \| NEEDS \| REPORT..` | the sum of the reports, which are named `a`, `b` and so on; or why they have no sum |
//! | `needs \| OPTIONS` | what a sum with these options needs of each report |
//! | `shown \| OPTIONS \| REPORT \| TITLE \| CHOSEN \| FROM \| TO` | the printed text of a report, or its part from FROM up to TO |
//! | `changes \| OPTIONS \| OLD \| NEW` | whether two reports differ, and the text of their comparison |
//! | `tree \| DEPTH \| COLUMNS \| REPORT` | the rows of a tree of directories |
//! | `directory \| NUMBER \| PATH` | the directory of a file, cut after this many names |
//! | `level \| DIRECTORY` | how many directories are above one, and the part of its path that leads to it from its parent |
//! | `language \| NAME \| LIST` | the language of a name, by a list or by that of the program |
//! | `languages \| PLACE \| LIST \| REPORT` | the files of a report, with their languages by a list at this place of their states |
#![tactic(auto)]

mod changes;
mod joins;
mod languages;
mod options;
mod reading;
mod reports;
mod rows;
mod shown;
mod texts;

use lc_tests::cases::{answered, begins_with, columns_of, kind_of, slices_of, text_of};
use std::alloc::{AllocError, Global};
use std::io::{Error, ErrorKind};
use std::rt::Files;
use std::{fs, io};

/// Returns the answer of a case, or `None` if there is no such kind of cases.
fn answer_of(alloc: Global, kind: &str, columns: &[&[u8]]) -> Result<Option<String>, AllocError> {
    let answer = match kind {
        "read" => reading::read(alloc, columns)?,
        "joined" => joins::joined_reports(alloc, columns)?,
        "named" => joins::named_report(alloc, columns)?,
        "summed" => joins::summed_reports(alloc, columns)?,
        "needs" => joins::needs_of(alloc, columns)?,
        "shown" => shown::shown(alloc, columns)?,
        "changes" => changes::changes(alloc, columns)?,
        "tree" => rows::rows_of_tree(alloc, columns)?,
        "directory" => rows::directory(alloc, columns)?,
        "level" => rows::level(alloc, columns)?,
        "language" => languages::language(alloc, columns)?,
        "languages" => languages::languages(alloc, columns)?,
        _ => return Ok(None),
    };
    Ok(Some(answer))
}

/// Returns the contents of the file that a column names, or the column itself.
fn contents<R: Files + AllocGlobal>(rt: &R, column: Vec<u8>) -> io::Result<Vec<u8>> {
    if column.starts_with(b"@") {
        return fs::read(rt, text_of(&column[1..]));
    }
    Ok(column)
}

fn columns_in<R: Files + AllocGlobal>(rt: &R, case: &str) -> io::Result<Vec<Vec<u8>>> {
    let mut columns = Vec::new(rt.alloc());
    for column in columns_of(rt.alloc(), case)? {
        columns.push(contents(rt, column)?)?;
    }
    Ok(columns)
}

/// Returns a case with its answer.
fn answer<R: Files + AllocGlobal>(rt: &R, kind: &str, case: &str) -> io::Result<String> {
    let columns = columns_in(rt, case)?;
    let slices = slices_of(rt.alloc(), &columns)?;
    match answer_of(rt.alloc(), kind, &slices)? {
        Some(answer) => Ok(answered(rt.alloc(), case, &answer)?),
        None => Err(Error::from(ErrorKind::InvalidInput)),
    }
}

fn main(rt: HostRuntime) -> io::Result<()> {
    let input = io::read_to_string(rt.alloc(), rt.stdin())?;
    let mut at: usize = 0;
    for line in input.lines() {
        let (case, _) = line.split_once(" =>").unwrap_or((line, ""));
        if let Some(kind) = kind_of(case) {
            let text = answer(&rt, kind, case)?;
            if !begins_with(input.get(at..).unwrap_or(""), &text) {
                println!(rt; "{text}")?;
            }
        }
        at = at.saturating_add(line.len()).saturating_add(1);
    }
    let count = input.lines().filter(|line| kind_of(line).is_some()).count();
    println!(rt; "{count} cases")
}
