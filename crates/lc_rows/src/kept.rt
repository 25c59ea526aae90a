//! The part of a report that meets some conditions.

ghost use Rattle.std.specs.Prelude.{◌≡◌, [], true, false, drop, length, map, filter, slice_index_or, IfErr, IfOk, IsOk, OnOk};
ghost use Rattle.std.specs.List.{items_where_true};
ghost use Rattle.lc_sheet.specs.Conditions.{meets, needs_files};
ghost use Rattle.lc_walk.specs.ReportTotals.{counted_line};
ghost use Rattle.lc_walk.specs.Sums.{IsInRange};
ghost use Rattle.lc_walk.specs.Tally.{StandsFor};
ghost use Rattle.lc_walk.specs.TallyRows.{sums_of_rows};
ghost use Rattle.lc_rows.specs.Kept.{IsKept, IsPart, IsPartWith, file_meets, row_meets, whole_form};
ghost use Rattle.lc_walk.specs.Classes.{classes_of};
ghost use Rattle.lc_walk.specs.AllColumns.{all_columns};
ghost use Rattle.lc_rows.specs.ShownRows.{part_of_row};

use crate::directories::name_of;
use crate::kinds::{Files, Rows};
use crate::row_key::RowKeyRef;
use crate::shown_row::ShownRow;
use lc_sheet::{Columns, Condition, Form, Key, Lines, needs_files};
use lc_walk::{ClassSums, FileLine, Report, Sums, Tally, TallyRow, extension, sums_of_rows};
use std::alloc::{AllocError, Global};

/// Returns the form in which a line has a value in each column of a report's rows, so that no column is summed over.
fn whole_form() -> Form
    ensures { result ≡ whole_form }
{
    Form {
        by: Columns::ALL,
        first: Key::Ext,
        shares: None,
    }
}

/// Returns whether a file meets all conditions.
fn file_meets(conditions: &[Condition<'_>], file: &FileLine) -> bool
    ensures { result ≡ file_meets conditions.now file.now }
{
    let form = whole_form();
    conditions.iter().all(|condition| condition.holds(Files::value(file, form, condition.column)))
}

/// Makes a row of a table with all columns from a row of a report.
fn shown_row(row: &TallyRow) -> ShownRow<'_>
    ensures { result ≡ part_of_row all_columns row.entry.now }
{
    ShownRow {
        key: RowKeyRef::of(None, &[], row.key()),
        sums: row.sums(),
    }
}

/// Returns whether the files of a row meet all conditions.
fn row_meets(conditions: &[Condition<'_>], row: &TallyRow) -> bool
    ensures { result ≡ row_meets conditions.now row.now }
{
    let line = shown_row(row);
    let form = whole_form();
    conditions.iter().all(|condition| condition.holds(Rows::value(&line, form, condition.column)))
}

/// Keeps the files that meet all conditions.
fn keep_files(conditions: &[Condition<'_>], files: &mut Vec<FileLine>)
    ensures { files.new.items ≡ filter (file_meets conditions.now) files.old.items }
{
    files.retain(|file| file_meets(conditions, file));
}

/// Keeps the rows whose files meet all conditions.
fn keep_rows(conditions: &[Condition<'_>], rows: &mut Vec<TallyRow>)
    ensures { rows.new.items ≡ filter (row_meets conditions.now) rows.old.items }
{
    rows.retain(|row| row_meets(conditions, row));
}

/// Adds up all rows, and the rows of each class. An error means that sums overflow. The sums of a walk's rows never overflow.
fn sums_of(rows: &[TallyRow]) -> Result<(Sums, ClassSums), AllocError>
    ensures sums { IfOk result (λ sums. (sums.0 ≡ sums_of_rows rows.now) × (sums.1 ≡ classes_of rows.now)) }
    ensures overflow { IfErr result (λ _. IsInRange (sums_of_rows rows.now) → ⊥) }
{
    let Some(totals) = sums_of_rows(rows) else {
        return Err(AllocError);
    };
    match ClassSums::of(rows) {
        Some(classes) => Ok((totals, classes)),
        None => Err(AllocError),
    }
}

/// Makes the tally of some files. An error means that an allocation failed, or that there are more files than in any walk.
fn tally_of(alloc: Global, files: &[FileLine]) -> Result<Tally, AllocError>
    ensures { IfOk result (λ tally. StandsFor tally (map counted_line files.now)) }
{
    let mut tally = Tally::new(alloc);
    for file in files {
        if tally.totals().files >= 1 << 63 {
            return Err(AllocError);
        }
        tally.add(extension(name_of(&file.path)), file.text(), file.count)?;
    }
    Ok(tally)
}

/// Makes the rows and all sums of a report anew from its files.
fn count_files(alloc: Global, report: &mut Report) -> Result<(), AllocError>
    ensures counted { OnOk result (IsPartWith report.old.files.items report.old report.new) }
    ensures faults { report.new.faults ≡ report.old.faults }
    ensures lists { report.new.lists ≡ report.old.lists }
{
    let tally = tally_of(alloc, &report.files)?;
    report.totals = tally.totals();
    report.rows = tally.into_rows();
    let (_, classes) = sums_of(&report.rows)?;
    report.classes = classes;
    Ok(())
}

/// Keeps the files whose marks are true. The mark of each file is at the file's place.
fn keep_marked_files(marks: &[bool], files: &mut Vec<FileLine>)
    requires { length marks.now ≡ length files.old.items }
    ensures { files.new.items ≡ items_where_true marks.now files.old.items }
{
    let mut left = marks;
    files.retain(
        move |_|
            ensures value { result ≡ slice_index_or left.entry.now 0 false }
            ensures left { left.exit.now ≡ drop 1 left.entry.now }
        {
            match left.split_first() {
                None => false,
                Some((mark, later)) => {
                    left = later;
                    *mark
                }
            }
        },
    );
}

/// Keeps the files of a report whose marks are true, and makes the rows and all sums anew from these files. The mark of each file is at the
/// file's place in the list.
///
/// Skipped entries, errors and the numbers of directories and entries stay as they are. An error means that an allocation failed, or that
/// the sums are larger than the sums of any walk.
pub fn keep_marked(alloc: Global, marks: &[bool], report: &mut Report) -> Result<(), AllocError>
    requires { length marks.now ≡ length report.old.files.items }
    ensures kept { OnOk result (IsPartWith (items_where_true marks.now report.old.files.items) report.old report.new) }
    ensures faults { report.new.faults ≡ report.old.faults }
    ensures lists { report.new.lists ≡ report.old.lists }
{
    keep_marked_files(marks, &mut report.files);
    count_files(alloc, report)
}

/// The law that sums fit their types. The law is the contract of this function, which does nothing.
fn are_in_range(sums: Sums)
    ensures { IsInRange sums }
{
    let _sums = sums;
}

/// Keeps the files and the rows that meet the conditions, and adds up all sums anew. No condition is on a number or an attribute, so all
/// files of a row meet the conditions, or none does.
fn keep_by_rows(conditions: &[Condition<'_>], report: &mut Report) -> Result<(), AllocError>
    requires by_rows { needs_files conditions.now ≡ false }
    ensures kept { OnOk result (IsPart conditions.now report.old report.new) }
    ensures adds_up { report.old.totals ≡ sums_of_rows report.old.rows.items → IsOk result }
    ensures faults { report.new.faults ≡ report.old.faults }
    ensures lists { report.new.lists ≡ report.old.lists }
{
    are_in_range(report.totals);
    keep_files(conditions, &mut report.files);
    keep_rows(conditions, &mut report.rows);
    let (totals, classes) = sums_of(&report.rows)?;
    report.totals = totals;
    report.classes = classes;
    Ok(())
}

/// Keeps the part of a report that meets all conditions, in place. The function drops the files that do not meet the conditions. If a
/// condition is on a number, such as `lines>1000`, or on an attribute, the rows are then made anew from the remaining files. Otherwise the
/// function drops the rows that do not meet the conditions. All sums are added up anew. If there are no conditions, the whole report is
/// kept.
///
/// Skipped entries, errors and the numbers of directories and entries stay as they are. If a condition is on a number or an attribute, the
/// report must list its files, and the function allocates memory. An error means that an allocation failed, or that the sums are larger
/// than the sums of any walk.
pub fn keep(
    alloc: Global,
    conditions: &[Condition<'_>],
    report: &mut Report,
) -> Result<(), AllocError>
    ensures kept { OnOk result (IsKept conditions.now report.old report.new) }
    ensures adds_up { needs_files conditions.now ≡ false → report.old.totals ≡ sums_of_rows report.old.rows.items → IsOk result }
    ensures faults { report.new.faults ≡ report.old.faults }
    ensures lists { report.new.lists ≡ report.old.lists }
{
    if conditions.is_empty() {
        return Ok(());
    }
    if needs_files(conditions) {
        keep_files(conditions, &mut report.files);
        count_files(alloc, report)
    } else {
        keep_by_rows(conditions, report)
    }
}
