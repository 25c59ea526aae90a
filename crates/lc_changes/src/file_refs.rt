//! The files of one report in the order of their paths, each path once.

ghost use Rattle.std.specs.Prelude.{◌≡◌, IfOk, option_map};
ghost use Rattle.lc_changes.specs.FileChanges.{AreByPath};

use crate::file_change::FileChange;
use crate::merge::Keyed;
use lc_walk::FileLine;
use std::alloc::{AllocError, Global};
use std::cmp::Ordering;
use std::marker::Model;

/// A borrowed file of a report.
#[derive(Drop)]
pub(crate) struct FileRef<'a> {
    file: &'a FileLine,
}

impl<'a> Model for FileRef<'a> {
    ghost use Rattle.lc_level.specs.Level.{FileLineModel};

    ghost Value = { FileLineModel };

    ghost view = { λ r. r.file.now };
}

impl<'a> FileRef<'a> {
    fn path(&self) -> &'a [u8]
        ensures { result.now ≡ self.now.path }
    {
        let file = self.file;
        &file.path
    }
}

fn file_of<'a>(found: Option<&FileRef<'a>>) -> Option<&'a FileLine>
    ensures { option_map (λ f. f.now) result ≡ option_map (λ r. r.now) found.entry }
{
    match found {
        None => None,
        Some(found) => Some(found.file),
    }
}

impl<'a> Keyed for FileRef<'a> {
    ghost use Rattle.std.specs.Prelude.{ℕ, List};
    ghost use Rattle.std.proofs.lemmas.Cmp.{nat_list_cmp_total};
    ghost use Rattle.std.proofs.lemmas.Map.Lookups.{exact_bytes};
    ghost use Rattle.lc_changes.specs.FileChanges.{IsFileOf, changed_path, file_path};
    ghost use Rattle.lc_tree.specs.ByteOrder.{bytes_cmp};

    type Line = FileChange<'a>;

    ghost Key = { List ℕ };

    ghost key = { file_path };

    ghost cmp = { bytes_cmp };

    ghost line_key = { changed_path };

    ghost is_of = { IsFileOf };

    fn compare(&self, other: &FileRef<'a>) -> Ordering {
        self.path().cmp(&other.path())
    }

    fn line(old: Option<&FileRef<'a>>, new: Option<&FileRef<'a>>) -> Option<FileChange<'a>> {
        let _file = new.or(old)?;
        Some(FileChange {
            old_file: file_of(old),
            new_file: file_of(new),
        })
    }

    ghost total = { nat_list_cmp_total };

    ghost exact = { exact_bytes };
}

/// Returns the files of a report in the order of their paths, each path once.
///
/// The files of a walk's report are already in this order. Sorting such files takes time in proportion to their number.
pub(crate) fn by_path<'a>(
    alloc: Global,
    files: &'a [FileLine],
) -> Result<Vec<FileRef<'a>>, AllocError>
    ensures { IfOk result (λ refs. AreByPath files.entry.now refs.items) }
{
    let mut refs = Vec::with_capacity(alloc, files.len())?;
    for file in files {
        refs.push(FileRef { file })?;
    }
    refs.sort_unstable_by(|a, b| a.compare(b));
    refs.dedup_by(|a, b| a.compare(b).is_eq());
    Ok(refs)
}
