//! Summing reports, or refusing them.

ghost use Rattle.std.specs.Prelude.{◌≡◌, IfOk, MatchResult};
ghost use Rattle.lc_reports.specs.Sums.{CanBeSummed, IsRefused, IsSumOf, IsSummed, IsUnjoined, needed_report, needed_reports};

use crate::columns::refuse_columns;
use crate::joining::joined;
use crate::lists::refuse_lists;
use crate::needs::Needs;
use crate::part::Part;
use crate::paths::refuse_same_path;
use crate::sum_fault::{SumFault, fault_of_join};
use lc_walk::{Report, ReportLists};
use std::alloc::{AllocError, Global};

/// Returns a report with only the lists that are needed.
fn needed_report(needs: Needs, part: Part<'_>) -> Report
    ensures { result ≡ needed_report needs part.entry }
{
    let mut report = part.report;
    // The report need not drop the other lists: they are not joined.
    report.lists = ReportLists {
        files: needs.files,
        left_out: needs.left_out,
    };
    report
}

fn needed_reports(
    alloc: Global,
    needs: Needs,
    parts: Vec<Part<'_>>,
) -> Result<Vec<Report>, AllocError>
    ensures { IfOk result (λ reports. reports.items ≡ needed_reports needs parts.entry.items) }
{
    let mut reports = Vec::with_capacity(alloc, parts.len())?;
    for part in parts {
        reports.push(needed_report(needs, part))?;
    }
    Ok(reports)
}

/// Refuses reports if one lacks what is needed, or if two files have the same path.
fn refuse<'n>(alloc: Global, needs: Needs, parts: &[Part<'n>]) -> Result<(), SumFault<'n>>
    ensures { MatchResult result (λ done. CanBeSummed needs parts.now) (IsRefused needs parts.now) }
{
    refuse_columns(needs, parts)?;
    refuse_lists(needs, parts)?;
    refuse_same_path(alloc, parts)?;
    Ok(())
}

/// Joins reports that may be summed, with only the lists that are needed.
fn join<'n>(alloc: Global, needs: Needs, parts: Vec<Part<'n>>) -> Result<Report, SumFault<'n>>
    ensures { MatchResult result (IsSumOf needs parts.entry.items) (IsUnjoined needs parts.entry.items) }
{
    let reports = needed_reports(alloc, needs, parts)?;
    match joined(alloc, reports) {
        Ok(report) => Ok(report),
        Err(fault) => Err(fault_of_join(fault)),
    }
}

/// Sums reports, or finds out why they can't be summed.
///
/// The sum is the report that [`joined`] makes of all reports, with only the lists that are needed. Of `ext`, `text` and `eol`, a table of
/// the sum must group rows only by columns of the sum. In the other columns, the rows of some report have placeholders.
///
/// The function looks for errors other than `Memory` in the order of the variants of [`SumFault`]. It tests all reports for one error
/// before it tests any report for the next error in this order. For example, it refuses a report without a needed column before a report
/// without files. Two listed files with the same path are refused whether or not files are needed: they may be one file, which would be
/// counted twice.
///
/// The function allocates memory for references to the listed paths and for the lists of the sum. It copies no path, except the path of
/// [`SumFault::SamePath`].
///
/// ```
/// let sum = summed(alloc, parts, Needs::of(None, &[], false, false))?;
/// ```
pub fn summed<'n>(alloc: Global, parts: Vec<Part<'n>>, needs: Needs) -> Result<Report, SumFault<'n>>
    ensures { IsSummed needs parts.entry.items result }
{
    refuse(alloc, needs, &parts)?;
    join(alloc, needs, parts)
}
