//! Joining several reports into one.
ghost use Rattle.lc_reports.specs.Joined.{IsUnited, Joins};
ghost use Rattle.lc_reports.specs.LineOrder.{fault_cmp, skipped_cmp};

use crate::gathered::{Gathered, Numbers, shared_columns, shared_lists};
use crate::join_fault::JoinFault;
use crate::line_order::{compare_faults, compare_skipped};
use lc_walk::{ClassSums, FaultLine, Report, SkippedLine, added_up, sort_lines};
use std::alloc::Global;

/// Sorts errors. Of several errors with the same path and word, keeps only one.
fn unite_faults(faults: &mut Vec<FaultLine>)
    ensures { IsUnited fault_cmp faults.old.items faults.new.items }
{
    faults.sort_unstable_by(|a, b| compare_faults(a, b));
    faults.dedup_by(|a, b| compare_faults(a, b).is_eq());
}

/// Sorts skipped entries. Of several entries with the same path, reason and kind, keeps only one.
fn unite_skipped(skipped: &mut Vec<SkippedLine>)
    ensures { IsUnited skipped_cmp skipped.old.items skipped.new.items }
{
    skipped.sort_unstable_by(|a, b| compare_skipped(a, b));
    skipped.dedup_by(|a, b| compare_skipped(a, b).is_eq());
}

/// Joins several reports into one. It adds up the reports' rows and numbers. The joined report has the columns that the rows of each report
/// are grouped by. It lists counted files only if each report lists its counted files, and skipped entries only if each report lists its
/// skipped entries. An error or a skipped entry appears once if several reports have it with the same fields.
///
/// The time is that of sorting the files, errors and skipped entries of all reports. The call allocates memory for the lists, but not for
/// paths. Before any allocation, it finds out whether a sum is too large.
///
/// ```
/// let both = joined(alloc, reports)?;
/// ```
pub fn joined(alloc: Global, reports: Vec<Report>) -> Result<Report, JoinFault>
    ensures { Joins reports.items result }
{
    let columns = shared_columns(&reports);
    let lists = shared_lists(&reports);
    let Some(numbers) = Numbers::of(&reports) else {
        return Err(JoinFault::TooLarge);
    };
    let Gathered {
        rows,
        mut files,
        mut faults,
        mut skipped,
    } = Gathered::of(alloc, reports, lists)?;
    let Some(rows) = added_up(rows) else {
        return Err(JoinFault::TooLarge);
    };
    sort_lines(&mut files);
    unite_faults(&mut faults);
    unite_skipped(&mut skipped);
    Ok(Report {
        rows,
        columns,
        totals: numbers.totals,
        classes: ClassSums {
            text: numbers.text,
            binary: numbers.binary,
        },
        directories: numbers.directories,
        entries: numbers.entries,
        lists,
        files,
        faults,
        skipped,
    })
}
