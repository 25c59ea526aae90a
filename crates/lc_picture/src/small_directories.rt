//! Directories that are too small for boxes of their own. In each directory, one box shows all its small child directories.

ghost use Rattle.std.specs.Prelude.{◌≡◌, ◌+◌, ◌==◌, ◌&&◌, ℕ, nat_le, nat_lt, if◌then◌else◌, length, IfOk, OnOk, ◌∷◌, List};
ghost use Rattle.std.specs.Option.{IfSome};
ghost use Rattle.std.specs.List.{slice_index_or};
ghost use Rattle.lc_rows.specs.RowKeys.{ShownRowModel};
ghost use Rattle.lc_picture.specs.Small.{ArePending, no_directories, one_more, row_level, small_in, smalls_of};

use crate::colours::path_of;
use lc_rows::{ShownRow, level_of, number_in};
use lc_sheet::Number;
use std::alloc::{AllocError, Global};

/// Directories that are too small for boxes of their own: how many they are, and the sum of their numbers, such as lines.
#[derive(Clone, Copy)]
pub(crate) struct SmallDirectories {
    pub(crate) count: usize,
    pub(crate) number: u128,
}

impl SmallDirectories {
    pub(crate) fn none() -> SmallDirectories
        ensures { result ≡ no_directories }
    {
        SmallDirectories {
            count: 0,
            number: 0,
        }
    }

    /// Returns these directories with one more, which has this number, or `None` if the sum of the numbers does not fit its type.
    fn with(self, number: u128) -> Option<SmallDirectories>
        ensures { IfSome result (λ more. more ≡ one_more number self) }
    {
        let count = self.count.checked_add(1)?;
        let number = self.number.checked_add(number)?;
        Some(SmallDirectories { count, number })
    }
}

/// Returns the small directories at the index `place` of a list, or no directories if the list is shorter.
pub(crate) fn small_at(smalls: &[SmallDirectories], place: usize) -> SmallDirectories
    ensures { result ≡ slice_index_or smalls.now place no_directories }
{
    smalls
        .get(place)
        .copied()
        .unwrap_or(SmallDirectories::none())
}

/// Cuts or extends a list to the length `level`. New elements have no directories.
fn cut_to(pending: &mut Vec<SmallDirectories>, level: usize) -> Result<(), AllocError>
    ensures each { OnOk result ((depth : ℕ) → slice_index_or pending.new.items depth no_directories
        ≡ (if nat_le level depth then no_directories else slice_index_or pending.old.items depth no_directories)) }
    ensures len { OnOk result (length pending.new.items ≡ level) }
{
    pending.truncate(level);
    'levels: while pending.len() < level {
        pending.push(SmallDirectories::none())?;
    }
    Ok(())
}

/// Adds a directory to the last element of a list, if the directory's number is less than the least for which a directory has a box.
fn add_to_last(
    pending: &mut Vec<SmallDirectories>,
    least: u128,
    number: u128,
) -> Result<(), AllocError>
    ensures { OnOk result ((depth : ℕ) → slice_index_or pending.new.items depth no_directories
        ≡ (if (length pending.old.items == depth + 1) && nat_lt number least
        then one_more number (slice_index_or pending.old.items depth no_directories)
        else slice_index_or pending.old.items depth no_directories)) }
{
    if number >= least {
        return Ok(());
    }
    let Some(last) = pending.pop() else {
        return Ok(());
    };
    let more = last.with(number).ok_or(AllocError)?;
    pending.push(more)?;
    Ok(())
}

/// Returns the small directories directly in the directory of `row`. If this directory is small itself, it is added to the small
/// directories directly in its parent.
///
/// `pending` has an element for each depth: the small directories after `row` whose parent has that depth and is not after `row`.
fn next_small(
    pending: &mut Vec<SmallDirectories>,
    by: Number,
    least: u128,
    row: &ShownRow<'_>,
) -> Result<SmallDirectories, AllocError>
    ensures small { IfOk result (λ small. (rows : List ShownRowModel) → ArePending by least rows pending.old.items
        → small ≡ small_in by least (row_level row.now) rows) }
    ensures pending { OnOk result ((rows : List ShownRowModel) → ArePending by least rows pending.old.items
        → ArePending by least (row.now ∷ rows) pending.new.items) }
{
    let level = level_of(path_of(row));
    let small = small_at(pending, level);
    cut_to(pending, level)?;
    add_to_last(pending, least, number_in(by, row.sums))?;
    Ok(small)
}

/// Returns, for each directory of `rows`, the small directories directly in this directory. The rows are depth first, and are read once,
/// from the last to the first.
pub(crate) fn smalls_of(
    alloc: Global,
    by: Number,
    least: u128,
    rows: &[ShownRow<'_>],
) -> Result<Vec<SmallDirectories>, AllocError>
    ensures { IfOk result (λ smalls. smalls.items ≡ smalls_of by least rows.now) }
{
    let mut smalls = Vec::with_capacity(alloc, rows.len())?;
    let mut pending = Vec::new(alloc);
    let mut index = rows.len();
    'rows: while index > 0 {
        index -= 1;
        let small = next_small(&mut pending, by, least, &rows[index])?;
        smalls.push(small)?;
    }
    smalls.reverse();
    Ok(smalls)
}
