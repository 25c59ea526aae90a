//! A row of a comparison.

ghost use Rattle.std.specs.Prelude.{◌≡◌};
ghost use Rattle.lc_changes.specs.Changes.{are_same_sums, differs, row_change};

use lc_rows::{ShownRow, number_in};
use lc_sheet::Number;
use lc_walk::Sums;

/// A row of a comparison: the sums of both reports over the files with one key. The key is the values of these files in the columns that
/// rows are grouped by. If a report has no file with this key, its sums are zero.
#[derive(Drop)]
pub struct ChangedRow<'a> {
    /// The key, and the sums of the new report over the files with this key.
    pub new_row: ShownRow<'a>,
    /// The sums of the old report over the files with this key.
    pub old_sums: Sums,
}

/// Returns whether all numbers of two sums are equal.
fn are_same_sums(a: Sums, b: Sums) -> bool
    ensures { result ≡ are_same_sums a b }
{
    a.files == b.files && a.lines == b.lines && a.blank == b.blank && a.bytes == b.bytes
}

impl<'a> ChangedRow<'a> {
    /// Returns whether any number of the row differs between the reports.
    pub(crate) fn differs(&self) -> bool
        ensures { result ≡ differs self.now }
    {
        !are_same_sums(self.old_sums, self.new_row.sums)
    }

    /// Returns by how much a number of the row changed, up or down.
    pub(crate) fn change(&self, number: Number) -> u128
        ensures { result ≡ row_change number self.now }
    {
        let old = number_in(number, self.old_sums);
        old.abs_diff(number_in(number, self.new_row.sums))
    }
}
