//! Tests of the rows of tallies: their keys, their order and their sums.

use crate::walk::told::push_row;
use lc_census::Count;
use lc_tests::{eol_of_word, has_words, text_of_word};
use lc_walk::Tally;
use std::alloc::{AllocError, Global};
use std::process::Abort;
use std::test::Fail;

/// Adds one file to the tally. The text has the file's extension, state of the attribute `text` and line ends, a 1, and its lines, blank
/// lines and bytes.
fn add_row(rt: &impl Abort, tally: &mut Tally, row: &str) -> Result<(), AllocError> {
    let mut words = row.split_ascii_whitespace();
    let ext = words.next().unwrap_or("-");
    let text = text_of_word(words.next().unwrap_or("-"));
    let eol = eol_of_word(words.next().unwrap_or("-"));
    let mut numbers = words.map(|word| word.parse::<u64>().unwrap_or(0));
    let _one = numbers.next();
    let count = Count {
        lines: numbers.next().unwrap_or(0),
        blank: numbers.next().unwrap_or(0),
        bytes: numbers.next().unwrap_or(0),
        eol,
    };
    assert!(rt; tally.totals().files < 9);
    tally.add(ext.strip_prefix('.').map(|ext| ext.as_bytes()), text, count)
}

/// Makes a tally of files, each of which is written as the row that it would have alone. Adds the files from the last to the first.
fn tally_of(rt: &impl Abort, alloc: Global, rows: &str) -> Result<Tally, AllocError> {
    let mut tally = Tally::new(alloc);
    for row in rows.rsplit(',') {
        if !row.is_empty() {
            add_row(rt, &mut tally, row)?;
        }
    }
    Ok(tally)
}

/// The files of a tally, the files of a second tally that is merged into the first, the expected rows, and the expected totals.
type Case = (&'static str, &'static str, &'static str, &'static str);

/// Rows in the order of their extensions: no extension first, then extensions by their bytes.
const EXTENSIONS: &str =
    "- - nul 1 1 0 1, .b - nul 1 1 0 1, .c unset mixed 1 1 0 1, .ca set none 1 1 0 1, .\u{e9} set none 1 1 0 1";

const TEXT_STATES: &str = "
    .c set nul 1 1 0 1, .c unset mixed 1 1 0 1, .c auto cr 1 1 0 1, .c other lf 1 1 0 1, .c - none 1 1 0 1";

const LINE_ENDS: &str = "
    - auto none 1 1 0 1, - auto lf 1 1 0 1, - auto crlf 1 1 0 1, - auto cr 1 1 0 1, - auto mixed 1 1 0 1, - auto nul 1 1 0 1";

const B: &str = ".b set lf 1 1 0 2";

const C: &str = ".c set lf 1 1 0 2";

const B_AND_C: &str = ".b set lf 1 1 0 2, .c set lf 1 1 0 2";

const CASES: &[Case] = &[
    (EXTENSIONS, "", EXTENSIONS, "5 5 0 5"),
    (TEXT_STATES, "", TEXT_STATES, "5 5 0 5"),
    (LINE_ENDS, "", LINE_ENDS, "6 6 0 6"),
    // files of one key are one row
    (
        ".c set lf 1 1 0 2, .c set lf 1 1 0 2",
        ".c set lf 1 2 1 5",
        ".c set lf 3 4 1 9",
        "3 4 1 9",
    ),
    (C, B, B_AND_C, "2 2 0 4"),
    ("", "", "", "0 0 0 0"),
];

fn check(
    rt: &impl Abort,
    alloc: Global,
    (files, others, rows, totals): &Case,
) -> Result<(), AllocError> {
    let mut tally = tally_of(rt, alloc, files)?;
    if !others.is_empty() {
        let other = tally_of(rt, alloc, others)?;
        assert!(rt; tally.totals().files < 9 && other.totals().files < 9);
        tally = tally.merge(other)?;
    }
    let sums = tally.totals();
    let mut found = String::new(alloc);
    for row in &tally.rows()? {
        push_row(&mut found, row)?;
    }
    assert!(rt; has_words(&found, rows), "{found}, not {rows}");
    let found = format!(in alloc;
        "{} {} {} {}",
        sums.files, sums.lines, sums.blank, sums.bytes
    )?;
    assert!(rt; found.as_str() == *totals, "{found}, not {totals}");
    Ok(())
}

#[test]
fn rows_of_tallies(rt: HostRuntime) -> Result<(), Fail> {
    for case in CASES {
        check(&rt, rt.alloc(), case)?;
    }
    Ok(())
}
