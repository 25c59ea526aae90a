//! The rows of a tree of directories. The row of a directory has the sums over all files in the directory and below it.

ghost use Rattle.std.specs.Prelude.{◌≡◌, ◌≤◌, ◌++◌, drop, length, min, map, option_map, IfOk, OnOk};
ghost use Rattle.std.specs.List.{flat_map};
ghost use Rattle.std.specs.List.Sorted.{IsNonDecreasingBy};
ghost use Rattle.lc_rows.specs.Directories.{first_names};
ghost use Rattle.lc_rows.specs.LevelParts.{AreBelow, HaveSumsOf, height, level_in, level_parts, next_above, own_row, row_at};
ghost use Rattle.lc_rows.specs.ShownRows.{AreAddedUp};
ghost use Rattle.lc_rows.specs.TreeRows.{AreTreeRows};

use crate::adding_up::added_up;
use crate::directories::{first_names, level_of};
use crate::parts::{Part, file_parts, push_shown, shown_parts};
use crate::row_key::RowKeyRef;
use crate::shown_row::ShownRow;
use lc_sheet::Columns;
use lc_walk::FileLine;
use std::alloc::{AllocError, Global};

/// Returns how many directories are above a directory whose path is cut after `depth` names.
fn levels_above(depth: u32, directory: Option<&[u8]>) -> usize
    ensures levels { result ≡ min depth (level_in (option_map (λ s. s.now) directory.entry)) }
    ensures few { result ≤ depth }
{
    match directory {
        None => 0,
        Some(directory) => level_of(directory).min(depth as usize),
    }
}

/// Makes the part that a row adds to a directory above its own: the path of the row's directory is cut after `level` names.
fn part_at<'a, 's>(level: usize, row: &'s ShownRow<'a>) -> Part<'a, 's>
    ensures { result ≡ row_at level row.now }
{
    let directory = row.key.directory;
    let key = RowKeyRef {
        directory: directory.map(|directory| first_names(level, directory)),
        ..row.key.copied()
    };
    Part::shown(key, &row.sums)
}

/// Pushes each row, with its directory cut after `depth` names.
fn push_own<'a>(
    depth: u32,
    rows: &[ShownRow<'a>],
    all: &mut Vec<ShownRow<'a>>,
) -> Result<(), AllocError>
    ensures { OnOk result (all.new.items ≡ all.old.items ++ map (own_row depth) rows.now) }
{
    for row in rows {
        all.push(ShownRow::of(&part_at(levels_above(depth, row.key.directory), row)))?;
    }
    Ok(())
}

/// Pushes the part that a row adds to the directory right above its own. No directory is above the top directory.
fn push_next<'a, 's>(
    depth: u32,
    row: &'s ShownRow<'a>,
    parts: &mut Vec<Part<'a, 's>>,
) -> Result<(), AllocError>
    ensures { OnOk result (parts.new.items ≡ parts.old.items ++ next_above depth row.now) }
{
    let Some(level) = levels_above(depth, row.key.directory).checked_sub(1) else {
        return Ok(());
    };
    parts.push(part_at(level, row))?;
    Ok(())
}

/// Adds up what rows add to the directories right above their own.
fn rows_above<'a>(
    alloc: Global,
    depth: u32,
    rows: &[ShownRow<'a>],
) -> Result<Vec<ShownRow<'a>>, AllocError>
    ensures { IfOk result (λ above. AreAddedUp (flat_map (next_above depth) rows.now) above.items) }
{
    let mut parts = Vec::new(alloc);
    for row in rows {
        push_next(depth, row, &mut parts)?;
    }
    let above = added_up(alloc, parts)?;
    Ok(above)
}

/// Returns how many levels a row is above the deepest directories that there can be.
fn height(depth: u32, row: &ShownRow<'_>) -> usize
    ensures { result ≡ height depth row.now }
{
    depth as usize - levels_above(depth, row.key.directory)
}

/// Returns how many rows come before the first row with fewer than `level` directories above its own. The deepest rows come first.
fn count_to_level(depth: u32, level: usize, rows: &[ShownRow<'_>]) -> usize
    requires level { level ≤ depth }
    requires order { IsNonDecreasingBy (height depth) rows.now }
    ensures few { result ≤ length rows.now }
    ensures below { AreBelow depth level (drop result rows.now) }
{
    let most = depth as usize - level;
    rows.partition_point(|row| height(depth, row) <= most)
}

/// Adds up the rows that were raised to a level, and the rows of this level.
fn level_rows<'a>(
    alloc: Global,
    raised: &[ShownRow<'a>],
    here: &[ShownRow<'a>],
) -> Result<Vec<ShownRow<'a>>, AllocError>
    ensures { IfOk result (λ rows. AreAddedUp (raised.now ++ here.now) rows.items) }
{
    let mut parts = shown_parts(alloc, raised)?;
    push_shown(&mut parts, here)?;
    let rows = added_up(alloc, parts)?;
    Ok(rows)
}

/// Returns a row of what rows add to each directory that is theirs or above theirs, one for each key. The deepest rows come first.
///
/// The function goes up level by level. What a level adds to a directory above is added up with the rows of the next level, so each
/// directory is looked at once.
fn all_levels<'a>(
    alloc: Global,
    rows: &[ShownRow<'a>],
    depth: u32,
) -> Result<Vec<ShownRow<'a>>, AllocError>
    requires { IsNonDecreasingBy (height depth) rows.now }
    ensures { IfOk result (λ all. HaveSumsOf (flat_map (level_parts depth) rows.now) all.items) }
{
    let mut all = Vec::new(alloc);
    let mut raised = Vec::new(alloc);
    // How many rows are raised, and how many levels the other rows have at most.
    let mut done = 0;
    let mut left = depth as usize + 1;
    'levels: while left > 0 {
        left -= 1;
        let rest = &rows[done..];
        let here = count_to_level(depth, left, rest);
        let level = level_rows(alloc, &raised, &rest[..here])?;
        push_own(depth, &level, &mut all)?;
        raised = rows_above(alloc, depth, &level)?;
        done += here;
    }
    Ok(all)
}

/// Returns a row for each directory that has files in it or below it, with the sums over these files. The rows are depth first: each
/// directory comes right before the directories below it, and the top directory comes first. The path of a directory is cut after `depth`
/// names: the files in deeper directories count as files of the directory whose path is left.
///
/// If rows are also grouped by other columns, a directory has a row for each key of the files in it and below it. The value of `by.dir`
/// makes no difference. An error means that an allocation failed or that sums overflow.
///
/// The function takes 72 bytes of memory for each file. The files of a directory are first added up in this directory, and only the sums
/// are added to the directory above, after what all directories in this directory add to it. So a deep tree takes no more rows than a
/// flat one.
pub fn tree_rows<'a>(
    alloc: Global,
    files: &'a [FileLine],
    by: Columns,
    depth: u32,
) -> Result<Vec<ShownRow<'a>>, AllocError>
    ensures { IfOk result (λ rows. AreTreeRows depth by files.entry.now rows.items) }
{
    let files_of_directories = file_parts(alloc, files, by, Some(depth))?;
    let mut with_files = added_up(alloc, files_of_directories)?;
    with_files.sort_unstable_by_key(|row| height(depth, row));
    let all = all_levels(alloc, &with_files, depth)?;
    let parts = shown_parts(alloc, &all)?;
    let mut rows = added_up(alloc, parts)?;
    rows.sort_unstable_by(|a, b| a.key.compare_depth_first(&b.key));
    Ok(rows)
}
