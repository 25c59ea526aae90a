//! The rows of a table, summed and sorted.

ghost use Rattle.std.specs.Prelude.{◌≡◌, IfOk};
ghost use Rattle.std.specs.List.Sorted.{IsPermutation, IsSorted};
ghost use Rattle.lc_rows.specs.ShownRows.{AreAddedUp, AreShown, AreSorted, AreSummed, number_in, parts_of, row_cmp};

use crate::adding_up::{added_up, rows_of};
use crate::parts::parts_of;
use crate::shown_row::ShownRow;
use lc_sheet::{Columns, Number};
use lc_walk::{FileLine, Sums, TallyRow};
use std::alloc::{AllocError, Global};
use std::cmp::Ordering;

fn summed<'a>(
    alloc: Global,
    rows: &'a [TallyRow],
    files: &'a [FileLine],
    by: Columns,
) -> Result<Vec<ShownRow<'a>>, AllocError>
    ensures { IfOk result (λ summed. AreSummed by rows.entry.now files.entry.now summed.items) }
{
    let parts = parts_of(alloc, rows, files, by)?;
    if by.are_all() {
        rows_of(alloc, &parts)
    } else {
        added_up(alloc, parts)
    }
}

/// Adds up a report's counts into one row for each key in the columns `by`, in the order of keys. Even if `by` has all columns, rows with
/// the same key are added up.
///
/// Rows by directories or attributes are sums over `files`, which the report must have, and all others over `rows`. An error means that an
/// allocation failed or that sums overflow. The sums of a walk's rows never overflow.
pub fn added_rows<'a>(
    alloc: Global,
    rows: &'a [TallyRow],
    files: &'a [FileLine],
    by: Columns,
) -> Result<Vec<ShownRow<'a>>, AllocError>
    ensures { IfOk result (λ added. AreAddedUp (parts_of by rows.entry.now files.entry.now) added.items) }
{
    let parts = parts_of(alloc, rows, files, by)?;
    let added = added_up(alloc, parts)?;
    Ok(added)
}

/// Returns the number in `sums` that `by` names, such as the number of lines.
pub fn number_in(by: Number, sums: Sums) -> u128
    ensures { result ≡ number_in by sums }
{
    match by {
        Number::Files => u128::from(sums.files),
        Number::Lines => sums.lines,
        Number::Blank => sums.blank,
        Number::Bytes => sums.bytes,
    }
}

fn compare(by: Number, a: &ShownRow<'_>, b: &ShownRow<'_>) -> Ordering
    ensures { result ≡ row_cmp by a.now b.now }
{
    match number_in(by, b.sums).cmp(&number_in(by, a.sums)) {
        Ordering::Equal => a.key.compare(&b.key),
        unequal => unequal,
    }
}

fn sort(by: Number, rows: &mut Vec<ShownRow<'_>>)
    ensures same { IsPermutation rows.old.items rows.new.items }
    ensures order { IsSorted (row_cmp by) rows.new.items }
{
    rows.sort_unstable_by(|a, b| compare(by, a, b));
}

/// Adds up a report's counts over the columns that `by` lacks, and sorts the rows if the table is sorted by a number.
///
/// Rows by directories or attributes are sums over `files`, which the report must have, and all others over `rows`. If `by` is
/// `Columns::ALL`, the rows are not added up, and unsorted rows keep the order of the report. An error means that an allocation failed or
/// that sums overflow. The sums of a walk's rows never overflow.
pub fn shown_rows<'a>(
    alloc: Global,
    rows: &'a [TallyRow],
    files: &'a [FileLine],
    by: Columns,
    sort_by: Option<Number>,
) -> Result<Vec<ShownRow<'a>>, AllocError>
    ensures { IfOk result (λ shown. AreShown by sort_by rows.entry.now files.entry.now shown.items) }
{
    let mut shown = summed(alloc, rows, files, by)?;
    if let Some(number) = sort_by {
        sort(number, &mut shown);
    }
    Ok(shown)
}
