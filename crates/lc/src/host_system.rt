//! Gives the program the directories and files of the host, the machine on which the program runs.

use crate::host_repository::repository_above;
use crate::progress::{Opened, Progress};
use crate::unread::{why_unlisted, why_unread};
use crate::watched_tree::WatchedTree;
use lc_io::StdSource;
use lc_program::{Repository, System, UnreadReason};
use lc_tree::{FileSystems, ReadFault, SysTree};
use std::alloc::{AllocError, Global};
use std::fs;
use std::io::ErrorKind;
use std::rt::Files;
use std::time::Clock;

/// The `System` with the directories and files of the host. The contracts allow any answer about any name. Only a listing of a directory is
/// restricted: it is made from the names that were read and from metadata.
#[derive(Drop)]
pub(crate) struct HostSystem<'a, R> {
    pub(crate) rt: &'a R,
    /// The counter of opened directories and files, if a terminal shows a progress line.
    pub(crate) progress: Option<&'a Progress>,
}

impl<'a, R: Files + Clock + Sync + AllocGlobal> System for HostSystem<'a, R>
where
    R::File: Send,
    R::Dir: Send,
{
    type Tree = WatchedTree<'a, R>;

    type File = StdSource<R::File>;

    ghost use Rattle.lc_tree.specs.SysTrees.{AnyContents, sys_top};

    ghost tree = { λ s directory entered. sys_top directory entered };

    ghost holds = { λ s name. AnyContents };

    ghost unlists = { λ s directory answer. Unit {0} };

    ghost unreads = { λ s name answer. Unit {0} };

    ghost lies = { λ s directory answer. Unit {0} };

    ghost stands = { λ s directory answer. Unit {0} };

    fn tree(
        &self,
        alloc: Global,
        directory: &str,
        entered: FileSystems,
    ) -> Result<WatchedTree<'a, R>, AllocError> {
        let tree = SysTree::new(self.rt, alloc, directory, entered)?;
        Ok(WatchedTree {
            tree,
            clock: self.rt,
            progress: self.progress,
            before: Opened::so_far(self.progress),
        })
    }

    fn open_file(&self, _alloc: Global, name: &str) -> Result<StdSource<R::File>, ReadFault> {
        match fs::open(self.rt, name) {
            Ok(file) => Ok(StdSource(file)),
            Err(error) if error.kind() == ErrorKind::OutOfMemory => Err(ReadFault::Memory),
            Err(_) => Err(ReadFault::Failed),
        }
    }

    fn why_unlisted(
        &self,
        alloc: Global,
        directory: &str,
    ) -> Result<Option<UnreadReason>, AllocError> {
        why_unlisted(self.rt, alloc, directory)
    }

    fn why_unread(&self, _alloc: Global, name: &str) -> Option<UnreadReason> {
        why_unread(self.rt, name)
    }

    fn repository_above(&self, alloc: Global, directory: &str) -> Option<Repository> {
        repository_above(self.rt, alloc, directory)
    }

    fn canonical(&self, alloc: Global, directory: &str) -> Result<Option<String>, AllocError> {
        match fs::canonicalize(self.rt, directory) {
            Ok(path) => Ok(Some(String::from_str(alloc, path.as_path().as_str())?)),
            Err(error) if error.kind() == ErrorKind::OutOfMemory => Err(AllocError),
            Err(_) => Ok(None),
        }
    }
}
