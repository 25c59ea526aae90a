//! Making a report from the members that were read from its JSON object.

ghost use Rattle.std.specs.Prelude.{◌≡◌, ◌≢◌, [], false, IfErr, IfOk, List, MatchOption, None, OnOk, Some, option_map};
ghost use Rattle.lc_reading.specs.Members.{Member};
ghost use Rattle.lc_reading.specs.Objects.{IsObjectOf};
ghost use Rattle.lc_reading.specs.Reports.{IsReportOf};
ghost use Rattle.lc_reading.specs.Kept.{Agrees, IsFinished};
ghost use Rattle.lc_reading.specs.declared.read_fault.ReadFault.TheVariants as fault;

use crate::adding::{binary_adds_up, parts_add_up, rows_add_up};
use crate::kept_files::{Kept, columns_of_rows, in_order, kept_of, tally_rows};
use crate::member_name::MemberName;
use crate::numbers_of::{Numbers, numbers_of};
use crate::object::Object;
use crate::read_fault::{NoReport, Part, ReadFault};
use lc_sheet::{AttributeColumn, Columns};
use lc_walk::{ClassSums, FaultLine, FileLine, Report, ReportLists, SkippedLine, TallyRow};
use std::alloc::{AllocError, Global};

/// Returns the skipped entries. An object must have their list exactly if it has the number of entries.
fn skipped_with(
    alloc: Global,
    entries: Option<u64>,
    skipped: Option<Vec<SkippedLine>>,
) -> Result<Vec<SkippedLine>, NoReport>
    ensures { IfOk result (λ found. MatchOption entries ((skipped ≡ None) × (found.items ≡ [])) (λ _. skipped ≡ Some found)) }
{
    match (entries, skipped) {
        (Some(_), Some(found)) => Ok(found),
        (None, None) => Ok(Vec::new(alloc)),
        (Some(_), None) => Err(NoReport::Missing(MemberName::Left)),
        (None, Some(_)) => Err(NoReport::Missing(MemberName::Entries)),
    }
}

/// Returns whether rows or files of a report were cut off.
fn is_cut(numbers: &Numbers, files: &Option<Vec<FileLine>>) -> bool
    ensures { result ≡ false → numbers.now.is_cut ≡ false }
{
    match files {
        Some(files) => numbers.is_cut || u128::from(numbers.total.files) > files.len() as u128,
        None => numbers.is_cut,
    }
}

/// Returns the rows and the files of a report, if the sums over them agree with the report's totals.
fn agreeing(
    alloc: Global,
    numbers: &Numbers,
    columns: Columns,
    rows: Vec<TallyRow>,
    files: Option<Vec<FileLine>>,
) -> Result<Kept, ReadFault>
    ensures { IfOk result (Agrees numbers.now columns rows.items (option_map (λ v. v.items) files)) }
{
    if !rows_add_up(&rows, numbers.total) {
        return Err(ReadFault::DoNotAddUp(Part::Rows));
    }
    let binary_listed = !columns.eol || binary_adds_up(&rows, numbers.binary);
    let kept = kept_of(alloc, files, columns, rows, numbers.total)?;
    if !binary_listed
        || !parts_add_up(numbers.text, numbers.binary, numbers.total)
        || (kept.columns.eol && !binary_adds_up(&kept.rows, numbers.binary))
    {
        return Err(ReadFault::DoNotAddUp(Part::TextAndBinary));
    }
    Ok(kept)
}

fn finished(
    numbers: &Numbers,
    kept: Kept,
    skipped: Vec<SkippedLine>,
    faults: Vec<FaultLine>,
) -> Result<Report, AllocError>
    ensures { IfOk result (IsFinished numbers.now kept skipped.items faults.items) }
{
    let lists = ReportLists {
        files: kept.has_files,
        left_out: numbers.entries.is_some(),
    };
    Ok(Report {
        rows: kept.rows,
        columns: kept.columns,
        totals: numbers.total,
        classes: ClassSums {
            text: numbers.text,
            binary: numbers.binary,
        },
        directories: numbers.directories,
        entries: numbers.entries.unwrap_or(0),
        lists,
        files: kept.files,
        faults: in_order(faults)?,
        skipped: in_order(skipped)?,
    })
}

/// Refuses a report that lists no files if attributes were asked for.
fn check_listed(attributes: &[AttributeColumn], has_files: bool) -> Result<(), ReadFault>
    ensures listed { OnOk result (has_files ≡ false → attributes.now ≡ []) }
    ensures refused { IfErr result (λ f. (f ≡ fault.NoAttribute 0) × (has_files ≡ false) × (attributes.now ≢ [])) }
{
    if has_files || attributes.is_empty() {
        Ok(())
    } else {
        Err(ReadFault::NoAttribute(0))
    }
}

/// Makes a report from its JSON object, whose files have the states of `attributes`, or returns why the object is no such report.
pub(crate) fn report_of(
    alloc: Global,
    object: Object<'_>,
    attributes: &[AttributeColumn],
) -> Result<Report, ReadFault>
    ensures { IfOk result (λ report. (ms : List Member) → IsObjectOf attributes.now ms object.entry → IsReportOf attributes.now ms report) }
{
    let Object {
        values,
        rows,
        files,
        skipped,
        faults,
    } = object;
    let numbers = numbers_of(&values)?;
    let rows = rows.ok_or(NoReport::Missing(MemberName::Rows))?;
    let faults = faults.ok_or(NoReport::Missing(MemberName::Faults))?;
    let skipped = skipped_with(alloc, numbers.entries, skipped)?;
    let columns = columns_of_rows(&rows)?;
    let rows = tally_rows(alloc, rows)?;
    if is_cut(&numbers, &files) {
        return Err(ReadFault::CutByTop);
    }
    let kept = agreeing(alloc, &numbers, columns, rows, files)?;
    check_listed(attributes, kept.has_files)?;
    let report = finished(&numbers, kept, skipped, faults)?;
    Ok(report)
}
