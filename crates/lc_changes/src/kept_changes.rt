//! The parts of two reports whose files changed in given ways.

ghost use Rattle.std.specs.{Prelude.{◌≡◌, filter, IfOk, OnOk}, List.Sorted.IsStrictlySortedBy, Ordering.on};
ghost use Rattle.lc_changes.specs.{FileChanges.changed_path, KeptChanges.{AreKeptParts, AreMarked, has_path, keeps_change, marks_by}};
ghost use Rattle.lc_tree.specs.ByteOrder.{bytes_cmp};

use crate::file_change::FileChange;
use crate::files::compared_files;
use lc_rows::keep_marked;
use lc_sheet::ChangeKinds;
use lc_walk::{FileLine, Report};
use std::alloc::{AllocError, Global};

/// Keeps the pairs of files whose change is of one of these kinds.
fn keep_kinds(kinds: ChangeKinds, attributes: u8, pairs: &mut Vec<FileChange<'_>>)
    ensures { pairs.new.items ≡ filter (keeps_change kinds attributes) pairs.old.items }
{
    pairs.retain(|pair| pair.is_among(kinds, attributes));
}

/// Returns whether one of these pairs, which are in the order of their paths, has a path. The search is binary.
fn has_path(pairs: &[FileChange<'_>], path: &[u8]) -> bool
    requires { IsStrictlySortedBy (on changed_path bytes_cmp) pairs.now }
    ensures { result ≡ has_path pairs.now path.now }
{
    pairs
        .binary_search_by(|pair| pair.path().cmp(&path))
        .is_ok()
}

/// Marks the files that are at the paths of these pairs.
fn marks_by(
    alloc: Global,
    pairs: &[FileChange<'_>],
    files: &[FileLine],
) -> Result<Vec<bool>, AllocError>
    requires { IsStrictlySortedBy (on changed_path bytes_cmp) pairs.now }
    ensures { IfOk result (λ marks. marks.items ≡ marks_by pairs.now files.now) }
{
    let mut marks = Vec::with_capacity(alloc, files.len())?;
    for file in files {
        marks.push(has_path(pairs, &file.path))?;
    }
    Ok(marks)
}

/// Marks the files of both reports whose change from the old to the new report is of one of these kinds.
fn marked(
    alloc: Global,
    kinds: ChangeKinds,
    attributes: u8,
    olds: &[FileLine],
    news: &[FileLine],
) -> Result<(Vec<bool>, Vec<bool>), AllocError>
    ensures { IfOk result (λ marks. AreMarked kinds attributes olds.now news.now marks.0.items marks.1.items) }
{
    let mut pairs = compared_files(alloc, olds, news)?;
    keep_kinds(kinds, attributes, &mut pairs);
    let old_marks = marks_by(alloc, &pairs, olds)?;
    let new_marks = marks_by(alloc, &pairs, news)?;
    Ok((old_marks, new_marks))
}

/// Keeps the files whose change from the old to the new report is of one of these kinds, in place. All other files leave both reports, and
/// the rows and all sums are made anew from the files that are left. If files of all kinds are kept, both reports stay as they are.
///
/// A file is `added` if the old report has no file at its path, and `removed` if the new report has none. If both have one, the file is
/// `changed` if its state of the attribute `text`, its line ends, its numbers or one of its first `attributes` attributes differs, and
/// otherwise `same`. Skipped entries, errors and the numbers of directories and entries stay as they are.
///
/// Both reports should list their files, since a report that does not list them keeps no file. An error means that an allocation failed, or
/// that the sums are larger than the sums of any walk. The function takes about as long as sorting the files of both reports.
pub fn keep_changes(
    alloc: Global,
    kinds: ChangeKinds,
    attributes: u8,
    old: &mut Report,
    new: &mut Report,
) -> Result<(), AllocError>
    ensures kept { OnOk result (AreKeptParts kinds attributes old.old new.old old.new new.new) }
    ensures old_faults { old.new.faults ≡ old.old.faults }
    ensures new_faults { new.new.faults ≡ new.old.faults }
    ensures old_lists { old.new.lists ≡ old.old.lists }
    ensures new_lists { new.new.lists ≡ new.old.lists }
{
    if kinds.are_all() {
        return Ok(());
    }
    let (olds, news) = marked(alloc, kinds, attributes, &old.files, &new.files)?;
    keep_marked(alloc, &olds, old)?;
    keep_marked(alloc, &news, new)
}
