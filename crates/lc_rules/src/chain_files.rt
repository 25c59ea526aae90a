//! The files of a chain of rule files: all are ignore files, or all are attribute files.

ghost use Rattle.std.specs.Prelude.{◌≡◌, ◌∷◌, [], IfOk, MatchOption};
ghost use Rattle.std.specs.List.{filter_map};
ghost use Rattle.lc_rules.specs.Chains.{with_file, lent, entry_file};

use smallvec::SmallVec;
use std::alloc::{AllocError, Global};
use std::marker::Model;
use std::sync::Arc;

/// A file and the depth of its directory. A `SmallVec` fills its unused room with entries without a file.
#[derive(Drop)]
struct ChainEntry<F> {
    depth: u32,
    file: Option<Arc<F, Global>>,
}

impl<F> Default for ChainEntry<F> {
    fn default() -> ChainEntry<F> {
        ChainEntry {
            depth: 0,
            file: None,
        }
    }
}

impl<F> Model for ChainEntry<F> {
    ghost use Rattle.std.specs.Prelude.{ℕ, Option};
    ghost use Rattle.lc_rules.specs.Chains.{lent};

    ghost Value = { ℕ × Option F };

    ghost view = { λ p. (p.depth, lent p.file) };
}

impl<F: Drop> ChainEntry<F> {
    fn share(&self) -> Result<ChainEntry<F>, AllocError>
        ensures { IfOk result (λ entry. entry ≡ self.now) }
    {
        let file = share(&self.file)?;
        Ok(ChainEntry {
            depth: self.depth,
            file,
        })
    }
}

/// Clones the `Arc` of a file, if there is a file.
pub(crate) fn share<F: Drop>(
    file: &Option<Arc<F, Global>>,
) -> Result<Option<Arc<F, Global>>, AllocError>
    ensures { IfOk result (λ shared. lent shared ≡ lent file.now) }
{
    match file {
        None => Ok(None),
        Some(file) => Ok(Some(Arc::try_clone(file)?)),
    }
}

/// The files of a chain from the top down, each with the depth of its directory. Several chains may share a file.
#[derive(Drop)]
pub(crate) struct ChainFiles<F> {
    /// The files, or `None` if no file was added, so that the empty chain needs no allocator.
    entries: Option<SmallVec<ChainEntry<F>, 8>>,
}

impl<F> Model for ChainFiles<F> {
    ghost use Rattle.std.specs.Prelude.{ℕ, List};
    ghost use Rattle.std.specs.List.{filter_map};
    ghost use Rattle.lc_rules.specs.Chains.{entries_in, entry_file};

    ghost Value = { List (ℕ × F) };

    ghost view = { λ c. filter_map entry_file (entries_in c.entries) };
}

impl<F: Drop> ChainFiles<F> {
    pub(crate) fn new() -> ChainFiles<F>
        ensures { result ≡ [] }
    {
        ChainFiles { entries: None }
    }

    /// Returns a copy of these files. If `file` is `Some`, the copy has one more file, below the others.
    pub(crate) fn with(
        &self,
        alloc: Global,
        depth: u32,
        file: Option<Arc<F, Global>>,
    ) -> Result<ChainFiles<F>, AllocError>
        ensures { IfOk result (λ files. files ≡ with_file self.now depth file) }
    {
        let mut entries = share_entries(alloc, self.as_slice())?;
        let Some(file) = file else {
            return Ok(ChainFiles {
                entries: Some(entries),
            });
        };
        let file = Some(file);
        entries.push(ChainEntry { depth, file })?;
        Ok(ChainFiles {
            entries: Some(entries),
        })
    }

    /// Returns all files, to be split off one after another from the first on.
    pub(crate) fn left(&self) -> FilesLeft<'_, F>
        ensures { result ≡ self.now }
    {
        FilesLeft {
            entries: self.as_slice(),
        }
    }

    fn as_slice(&self) -> &[ChainEntry<F>]
        ensures { filter_map entry_file result.now ≡ self.now }
    {
        match &self.entries {
            None => &[],
            Some(entries) => entries.as_slice(),
        }
    }
}

fn share_entries<F: Drop>(
    alloc: Global,
    entries: &[ChainEntry<F>],
) -> Result<SmallVec<ChainEntry<F>, 8>, AllocError>
    ensures { IfOk result (λ shared. shared.items ≡ entries.now) }
{
    let mut shared = SmallVec::new(alloc);
    for entry in entries {
        shared.push(entry.share()?)?;
    }
    Ok(shared)
}

/// The files of a chain that are still to be read, in order.
#[derive(Drop)]
pub(crate) struct FilesLeft<'a, F> {
    entries: &'a [ChainEntry<F>],
}

impl<'a, F> Model for FilesLeft<'a, F> {
    ghost use Rattle.std.specs.Prelude.{ℕ, List};
    ghost use Rattle.std.specs.List.{filter_map};
    ghost use Rattle.lc_rules.specs.Chains.{entry_file};

    ghost Value = { List (ℕ × F) };

    ghost view = { λ l. filter_map entry_file l.entries.now };
}

impl<'a, F> FilesLeft<'a, F> {
    /// Returns the depth of the first file, that file, and the files after it.
    pub(crate) fn split_first(self) -> Option<(u32, &'a F, FilesLeft<'a, F>)>
        ensures { MatchOption result (self.entry ≡ []) (λ r. self.entry ≡ (r.0, r.1.now) ∷ r.2) }
    {
        let mut rest = self.entries;
        'entries: while let Some((entry, others)) = rest.split_first() {
            if let Some(file) = &entry.file {
                return Some((entry.depth, file, FilesLeft { entries: others }));
            }
            rest = others;
        }
        None
    }
}
