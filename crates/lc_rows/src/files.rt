//! The files that a table lists, sorted.

ghost use Rattle.std.specs.Prelude.{◌≡◌};
ghost use Rattle.std.specs.List.Sorted.{IsPermutation, IsSorted};
ghost use Rattle.lc_rows.specs.ShownFiles.{AreFilesSorted, file_cmp, file_number};

use lc_sheet::Number;
use lc_walk::FileLine;
use std::cmp::Ordering;

/// Returns the number of a file that `by` names, such as its number of lines. The number of files is 1.
pub fn number_of(by: Number, file: &FileLine) -> u64
    ensures { result ≡ file_number by file.now }
{
    match by {
        Number::Files => 1,
        Number::Lines => file.count.lines,
        Number::Blank => file.count.blank,
        Number::Bytes => file.count.bytes,
    }
}

fn compare(by: Number, a: &FileLine, b: &FileLine) -> Ordering
    ensures { result ≡ file_cmp by a.now b.now }
{
    match number_of(by, b).cmp(&number_of(by, a)) {
        Ordering::Equal => a.path.cmp(&b.path),
        unequal => unequal,
    }
}

fn sort(by: Number, files: &mut Vec<FileLine>)
    ensures same { IsPermutation files.old.items files.new.items }
    ensures order { IsSorted (file_cmp by) files.new.items }
{
    files.sort_unstable_by(|a, b| compare(by, a, b));
}

/// Sorts the files of a report in place, in the order in which a table lists them. Files with a larger number `by`, such as lines, come
/// first. Files with equal numbers are in the order of their paths.
///
/// If `by` is `None`, the files keep their order.
pub fn sort_files(by: Option<Number>, files: &mut Vec<FileLine>)
    ensures { AreFilesSorted by files.old.items files.new.items }
{
    if let Some(number) = by {
        sort(number, files);
    }
}
