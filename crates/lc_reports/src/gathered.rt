//! Joins several reports: adds up their numbers, and collects their lists of rows, files, errors and skipped entries.
ghost use Rattle.std.specs.Prelude.{◌≡◌, IfOk, MatchOption, OnOk};
ghost use Rattle.std.specs.List.{list_all};
ghost use Rattle.lc_reports.specs.Gathered.{Adds, IsGathered, NumbersFit, no_numbers, numbers_of, numbers_with};
ghost use Rattle.lc_reports.specs.Joined.{shared_columns, shared_lists};
ghost use Rattle.lc_sheet.specs.Keys.{has_key};
ghost use Rattle.lc_walk.specs.Sums.{IsInRange, plus};
ghost use Rattle.lc_walk.specs.TallyRows.{sums_of_rows};

use lc_sheet::{Columns, Key};
use lc_walk::{FaultLine, FileLine, Report, ReportLists, SkippedLine, Sums, TallyRow};
use std::alloc::{AllocError, Global};

/// Returns these sums with the sums over some rows added, or `None` if a sum does not fit its type.
fn with_rows(sums: Sums, rows: &[TallyRow]) -> Option<Sums>
    ensures { MatchOption result (IsInRange (plus sums (sums_of_rows rows.now)) → ⊥) (λ all. all ≡ plus sums (sums_of_rows rows.now)) }
{
    let mut all = sums;
    let mut rest = rows;
    'rows: while let Some((row, others)) = rest.split_first() {
        all = all.checked_add(row.sums())?;
        rest = others;
    }
    Some(all)
}

/// The numbers of several reports, added up.
#[derive(Drop)]
pub(crate) struct Numbers {
    // Tested with the other sums before anything is allocated, so that a join fails for lack of memory only if no sum is too large.
    rows: Sums,
    pub(crate) totals: Sums,
    pub(crate) text: Sums,
    pub(crate) binary: Sums,
    pub(crate) directories: u64,
    pub(crate) entries: u64,
}

impl Numbers {
    fn none() -> Numbers
        ensures { result ≡ no_numbers }
    {
        Numbers {
            rows: Sums::none(),
            totals: Sums::none(),
            text: Sums::none(),
            binary: Sums::none(),
            directories: 0,
            entries: 0,
        }
    }

    /// Returns these numbers with the numbers of a report added, or `None` if a sum does not fit its type.
    fn with(self, report: &Report) -> Option<Numbers>
        ensures { MatchOption result (NumbersFit (numbers_with self report.now) → ⊥) (λ n. n ≡ numbers_with self report.now) }
    {
        Some(Numbers {
            rows: with_rows(self.rows, &report.rows)?,
            totals: self.totals.checked_add(report.totals)?,
            text: self.text.checked_add(report.classes.text)?,
            binary: self.binary.checked_add(report.classes.binary)?,
            directories: self.directories.checked_add(report.directories)?,
            entries: self.entries.checked_add(report.entries)?,
        })
    }

    /// Returns the numbers of these reports, added up, or `None` if a sum does not fit its type.
    pub(crate) fn of(reports: &[Report]) -> Option<Numbers>
        ensures { MatchOption result (NumbersFit (numbers_of reports.now) → ⊥) (λ n. n ≡ numbers_of reports.now) }
    {
        let mut numbers = Numbers::none();
        let mut rest = reports;
        'reports: while let Some((report, others)) = rest.split_first() {
            numbers = numbers.with(report)?;
            rest = others;
        }
        Some(numbers)
    }
}

/// Returns whether the rows of each of these reports are grouped by a key.
fn have_key(key: Key, reports: &[Report]) -> bool
    ensures { result ≡ list_all (λ r. has_key r.columns key) reports.now }
{
    reports.iter().all(|report| report.columns.has(key))
}

/// Returns the columns that the rows of each of these reports are grouped by.
pub(crate) fn shared_columns(reports: &[Report]) -> Columns
    ensures { result ≡ shared_columns reports.now }
{
    Columns {
        dir: None,
        attributes: 0,
        ext: have_key(Key::Ext, reports),
        text: have_key(Key::Text, reports),
        eol: have_key(Key::Eol, reports),
    }
}

fn have_files(reports: &[Report]) -> bool
    ensures { result ≡ list_all (λ r. r.lists.files) reports.now }
{
    reports.iter().all(|report| report.lists.files)
}

fn have_left_out(reports: &[Report]) -> bool
    ensures { result ≡ list_all (λ r. r.lists.left_out) reports.now }
{
    reports.iter().all(|report| report.lists.left_out)
}

/// Returns the optional lists that all of these reports have.
pub(crate) fn shared_lists(reports: &[Report]) -> ReportLists
    ensures { result ≡ shared_lists reports.now }
{
    ReportLists {
        files: have_files(reports),
        left_out: have_left_out(reports),
    }
}

/// The rows and lines of several reports, one report after another.
#[derive(Drop)]
pub(crate) struct Gathered {
    pub(crate) rows: Vec<TallyRow>,
    pub(crate) files: Vec<FileLine>,
    pub(crate) faults: Vec<FaultLine>,
    pub(crate) skipped: Vec<SkippedLine>,
}

impl Gathered {
    /// Gathers the rows and errors of these reports, and the files and skipped entries if `lists` has them.
    pub(crate) fn of(
        alloc: Global,
        reports: Vec<Report>,
        lists: ReportLists,
    ) -> Result<Gathered, AllocError>
        ensures { IfOk result (IsGathered lists reports.items) }
    {
        let mut gathered = Gathered {
            rows: Vec::new(alloc),
            files: Vec::new(alloc),
            faults: Vec::new(alloc),
            skipped: Vec::new(alloc),
        };
        for report in reports {
            gathered.add(report, lists)?;
        }
        Ok(gathered)
    }

    /// Appends the rows and errors of a report, and its files and skipped entries if `lists` has them.
    fn add(&mut self, report: Report, lists: ReportLists) -> Result<(), AllocError>
        ensures { OnOk result (Adds lists self.old report self.new) }
    {
        let Report {
            mut rows,
            mut files,
            mut faults,
            mut skipped,
            ..
        } = report;
        self.rows.append(&mut rows)?;
        self.faults.append(&mut faults)?;
        if lists.files {
            self.files.append(&mut files)?;
        }
        if lists.left_out {
            self.skipped.append(&mut skipped)?;
        }
        Ok(())
    }
}
