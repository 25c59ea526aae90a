//! The order of the rows and of the files of a comparison.

ghost use Rattle.std.specs.Prelude.{◌≡◌};
ghost use Rattle.lc_changes.specs.Changes.{AreChangesSorted, change_cmp, differs, kept_rows};
ghost use Rattle.lc_changes.specs.FileChanges.{AreFileChangesSorted, file_change_cmp};

use crate::changed_row::ChangedRow;
use crate::file_change::FileChange;
use lc_sheet::Number;
use std::cmp::Ordering;

fn compare_rows(by: Number, a: &ChangedRow<'_>, b: &ChangedRow<'_>) -> Ordering
    ensures { result ≡ change_cmp by a.now b.now }
{
    match b.change(by).cmp(&a.change(by)) {
        Ordering::Equal => a.new_row.key.compare(&b.new_row.key),
        unequal => unequal,
    }
}

/// Sorts rows by the change of a number, the largest change first. If `by` is `None`, the rows stay in the order of their keys.
pub(crate) fn sort_rows(by: Option<Number>, rows: &mut Vec<ChangedRow<'_>>)
    ensures { AreChangesSorted by rows.old.items rows.new.items }
{
    let Some(number) = by else {
        return;
    };
    rows.sort_unstable_by(|a, b| compare_rows(number, a, b));
}

/// Removes the rows in which no number changed. If `all` is true, no row is removed.
pub(crate) fn keep_rows(all: bool, rows: &mut Vec<ChangedRow<'_>>)
    ensures { rows.new.items ≡ kept_rows all rows.old.items }
{
    if all {
        return;
    }
    rows.retain(|row| row.differs());
}

fn compare_files(by: Number, a: &FileChange<'_>, b: &FileChange<'_>) -> Ordering
    ensures { result ≡ file_change_cmp by a.now b.now }
{
    match b.change(by).cmp(&a.change(by)) {
        Ordering::Equal => a.path().cmp(&b.path()),
        unequal => unequal,
    }
}

/// Sorts files by the change of a number, the largest change first. If `by` is `None`, the files stay in the order of their paths.
pub(crate) fn sort_files(by: Option<Number>, files: &mut Vec<FileChange<'_>>)
    ensures { AreFileChangesSorted by files.old.items files.new.items }
{
    let Some(number) = by else {
        return;
    };
    files.sort_unstable_by(|a, b| compare_files(number, a, b));
}
