//! The files of two reports side by side.

ghost use Rattle.std.specs.Prelude.{IfOk};
ghost use Rattle.lc_changes.specs.FileChanges.{AreFilesChanged, AreFilesCompared};

use crate::file_change::FileChange;
use crate::file_refs::by_path;
use crate::merge::merged;
use lc_walk::{FileLine, Report};
use std::alloc::{AllocError, Global};

/// Pairs the files of two reports by their paths, in the order of paths.
pub(crate) fn compared_files<'a>(
    alloc: Global,
    olds: &'a [FileLine],
    news: &'a [FileLine],
) -> Result<Vec<FileChange<'a>>, AllocError>
    ensures { IfOk result (λ files. AreFilesCompared olds.entry.now news.entry.now files.items) }
{
    let olds = by_path(alloc, olds)?;
    let news = by_path(alloc, news)?;
    let files = merged(alloc, &olds, &news)?;
    Ok(files)
}

/// Returns the files that differ between two reports, in the order of their paths. Their first `attributes` attributes are compared too.
/// Returns no files if `listed` is false.
pub(crate) fn changed_files<'a>(
    alloc: Global,
    old: &'a Report,
    new: &'a Report,
    listed: bool,
    attributes: u8,
) -> Result<Vec<FileChange<'a>>, AllocError>
    ensures { IfOk result (λ files. AreFilesChanged listed attributes old.entry.now.files.items new.entry.now.files.items files.items) }
{
    if !listed {
        return Ok(Vec::new(alloc));
    }
    let mut files = compared_files(alloc, &old.files, &new.files)?;
    files.retain(|file| file.is_changed(attributes));
    Ok(files)
}
