//! The tree in a directory of the host. The methods of this tree count the directories and files that they open, for the progress line.

use crate::progress::{Opened, Progress};
use lc_io::{Source, StdSource};
use lc_tree::{Entry, Listing, ReadFault, SysTree, Tree};
use std::alloc::Global;
use std::marker::Model;
use std::rt::Files;
use std::time::Clock;

/// The tree in a directory of the host. Each method returns what the same method of the field `tree` returns.
#[derive(Drop)]
pub(crate) struct WatchedTree<'a, R> {
    pub(crate) tree: SysTree<'a, R>,
    pub(crate) clock: &'a R,
    /// The counter of opened directories and files, if a terminal shows a progress line.
    pub(crate) progress: Option<&'a Progress>,
    /// What was opened before the tree's top was first listed. A walk that begins anew opens the same directories and files again.
    pub(crate) before: Opened,
}

impl<'a, R> Model for WatchedTree<'a, R> {
    ghost use Rattle.lc_tree.specs.SysTrees.{SysTop};

    ghost Value = { SysTop };

    ghost view = { λ t. t.tree };
}

impl<R: Clock> WatchedTree<'_, R> {
    fn note_directory(&self, path: &[u8]) {
        if let Some(progress) = self.progress {
            if path.is_empty() {
                progress.restart(self.before);
            }
            progress.add_directory(self.clock);
        }
    }

    fn note_file(&self) {
        if let Some(progress) = self.progress {
            progress.add_file(self.clock);
        }
    }
}

impl<R: Files + Clock + Sync> Tree for WatchedTree<'_, R>
where
    R::File: Send,
    R::Dir: Send,
{
    type File = StdSource<R::File>;

    ghost use Rattle.lc_tree.specs.MemTrees.{nothing};
    ghost use Rattle.lc_tree.specs.SysFails.{may_fail};
    ghost use Rattle.lc_tree.specs.SysLists.{NamesOfSome, SysListings, SysShows};
    ghost use Rattle.lc_tree.specs.SysTrees.{AnyContents};

    ghost lists = { λ t path. SysListings ⟦<StdSource<R::Dir> as Source>⟧.may_give t path };

    ghost gives = { λ t path. AnyContents };

    ghost has_names = { λ t path. NamesOfSome ⟦<StdSource<R::Dir> as Source>⟧.may_give };

    ghost shows = { λ t path. SysShows t path };

    fn list(&self, alloc: Global, path: &[u8]) -> Result<Listing, ReadFault> {
        self.note_directory(path);
        self.tree.list(alloc, path)
    }

    fn names(&self, alloc: Global, path: &[u8]) -> Result<Option<Vec<Vec<u8>>>, ReadFault> {
        self.note_directory(path);
        self.tree.names(alloc, path)
    }

    fn look(
        &self,
        alloc: Global,
        path: &[u8],
        names: Vec<Vec<u8>>,
    ) -> Result<Vec<Entry>, ReadFault> {
        self.tree.look(alloc, path, names)
    }

    fn open_file(&self, alloc: Global, path: &[u8]) -> Result<StdSource<R::File>, ReadFault> {
        self.note_file();
        self.tree.open_file(alloc, path)
    }

    ghost lists_named = { λ t path answer by. by };

    ghost some_listing = { λ t path. may_fail ⟦<StdSource<R::Dir> as Source>⟧.may_give t path };

    ghost some_content = { λ t path. (nothing, λ rooms pieces stop given. tt) };
}
