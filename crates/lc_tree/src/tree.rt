//! The trait of trees of directories and files.
ghost use Rattle.std.specs.Prelude.{ℕ, List};
ghost use Rattle.lc_tree.specs.Named.{bytes_of, AreAmong, GivesNames, ListsNamed, Looks, LooksAt, Names, NoLooks, NoNames};
ghost use Rattle.lc_tree.specs.Trees.{Content, Contents, Listings, Lists, MayHold, Opens, TellsSome};

use crate::{Entry, Listing, ReadFault};
use lc_io::Source;
use std::alloc::Global;

/// A tree of directories and files, which several workers read at the same time.
///
/// The path of a directory or a file is relative to the tree's top: names joined by single slashes, and the empty path for the top itself.
/// In contracts, `lists` states which listings the directory at a path may have, and `gives` which contents a file may have. Two openings
/// of one file may have different contents. `has_names` states which names a directory may have, and `shows` which metadata each name may
/// have.
pub trait Tree: Sync {
    /// An opened file.
    type File: Source + Send + Drop;

    // What listing a path may answer.
    ghost lists: { Self → List ℕ → Listings };

    // What the reads of the file at a path may give, each time that it is opened.
    ghost gives: { Self → List ℕ → Contents };

    // Which names the directory at a path may give; the default is that of a tree that gives none.
    ghost has_names: { Self → List ℕ → Names } = { λ t path. NoNames };

    // What the metadata of a name in the directory at a path may show.
    ghost shows: { Self → List ℕ → Looks } = { λ t path. NoLooks };

    /// Lists the directory at a path.
    fn list(&self, alloc: Global, path: &[u8]) -> Result<Listing, ReadFault>
        ensures { Lists (lists self.now path.now) result };

    /// Opens the file at a path. The error is `ReadFault::Failed` or `ReadFault::Memory`.
    fn open_file(&self, alloc: Global, path: &[u8]) -> Result<Self::File, ReadFault>
        ensures { Opens Self.File.may_give (gives self.now path.now) result };

    /// Returns the names in the directory at a path, for `look`. Returns `None` if the tree lists a directory only as a whole.
    fn names(&self, _alloc: Global, path: &[u8]) -> Result<Option<Vec<Vec<u8>>>, ReadFault>
        ensures { GivesNames (has_names self.now path.now) result }
    {
        Ok(None)
    }

    /// Reads the metadata of these names in the directory at a path, one after another up to the first error. Returns an entry for each
    /// name that still exists, in the order of `names`.
    ///
    /// The default implementation is for a tree whose `names` returns `None`, and always returns `ReadFault::Memory`.
    fn look(
        &self,
        _alloc: Global,
        path: &[u8],
        names: Vec<Vec<u8>>,
    ) -> Result<Vec<Entry>, ReadFault>
        ensures { LooksAt (shows self.now path.now) (bytes_of names.items) result }
    {
        let _unseen = (path, names);
        Err(ReadFault::Memory)
    }

    // What the names of a directory show is what listing it may answer.
    ghost lists_named: { (t : Self) (path : List ℕ) → AreAmong (ListsNamed (has_names t path) (shows t path)) (lists t path) };

    // Each path may be listed in some way, which is no failed allocation.
    ghost some_listing: { (t : Self) (path : List ℕ) → TellsSome (lists t path) };

    // Each file may be read in some way.
    ghost some_content: { (t : Self) (path : List ℕ) → (c : Content) × MayHold (gives t path) c };
}
