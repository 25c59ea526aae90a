//! Opening a directory: entering it, and deciding which of its entries are skipped.
ghost use Rattle.std.specs.Prelude.{◌≡◌, IfOk};
ghost use Rattle.lc_level.specs.Opens.{OpensLevel};
ghost use Rattle.lc_tree.specs.Trees.{Lists};

use crate::classify::ChildDirectory;
use crate::entering::Entered;
use crate::job::Job;
use crate::level_reader::LevelReader;
use crate::lines::{FaultLine, SkippedLine};
use crate::open_fault::OpenFault;
use crate::scratch::Scratch;
use crate::threads::spare_threads::SpareThreads;
use lc_tree::{Listing, ReadFault, Tree, list_in_parts};
use std::thread::Threads;

/// A directory that was listed, and whose entries were divided into files to count, directories to visit, and skipped entries.
#[derive(Drop)]
pub struct Opened {
    /// The job of the directory: its path, and its chains of rule files, which include the directory's own rule files.
    pub job: Job,
    /// The names of the files that are to be counted.
    pub files: Vec<Vec<u8>>,
    /// The child directories that are to be visited.
    pub children: Vec<ChildDirectory>,
    /// The skipped entries, in the order of the listing. The list is empty unless the reader's options say to keep them.
    pub skipped: Vec<SkippedLine>,
    /// An error for each path of `--only` that is absent. The path in the error is relative to the directory.
    pub absent: Vec<FaultLine>,
    /// The number of the directory's entries that the paths of `--only` select. If there are no paths of `--only`, all entries are
    /// selected.
    pub entries: u32,
}

impl<T: Tree> LevelReader<'_, T> {
    /// Like `open`, but takes the listing of the job's directory as an argument.
    fn open_listed(
        &self,
        job: &Job,
        listing: Result<Listing, ReadFault>,
        scratch: &mut Scratch,
    ) -> Result<Opened, OpenFault>
        requires { Lists (T.lists self.now.tree.now job.now.path) listing }
        ensures at { IfOk result (λ o. scratch.new.path.directory ≡ o.job.path) }
        ensures opens { OpensLevel (T.lists self.now.tree.now) (T.gives self.now.tree.now) self.now.options.left_out
            self.now.filters.now job.now result }
    {
        let Entered { job, entries, .. } = self.enter_listed(job, listing, scratch)?;
        let filters = self.filters;
        let Ok(wanted) = filters.only.selection_in(self.alloc, job.path()) else {
            return Err(OpenFault::Memory);
        };
        let Ok(absent) = wanted.absent(self.alloc, &entries) else {
            return Err(OpenFault::Memory);
        };
        let Ok(entries) = wanted.part_of(self.alloc, entries) else {
            return Err(OpenFault::Memory);
        };
        let number = entries.len() as u32;
        match self.classify_all(&job, entries, &mut scratch.path) {
            Ok(found) => Ok(Opened {
                job,
                files: found.files,
                children: found.children,
                skipped: found.skipped,
                absent,
                entries: number,
            }),
            Err(fault) => Err(fault),
        }
    }

    /// Lists the directory of a job, reads its rule files and decides which entries are skipped. The call stops at the first error, or at
    /// an entry whose path is too long or too deep (`OpenFault::TooDeep`), unless the entry is `.git` or is not selected by `--only`. On
    /// success `scratch` holds the path of the directory.
    pub fn open(&self, job: &Job, scratch: &mut Scratch) -> Result<Opened, OpenFault>
        ensures at { IfOk result (λ o. scratch.new.path.directory ≡ o.job.path) }
        ensures opens { OpensLevel (T.lists self.now.tree.now) (T.gives self.now.tree.now) self.now.options.left_out
            self.now.filters.now job.now result }
    {
        let listing = self.tree.list(self.alloc, job.path());
        self.open_listed(job, listing, scratch)
    }

    /// Like `open`, but idle threads help with the entries of a large directory.
    pub fn open_in_parts<R: Threads + Sync>(
        &self,
        threads: &SpareThreads<'_, R>,
        job: &Job,
        scratch: &mut Scratch,
    ) -> Result<Opened, OpenFault>
        ensures at { IfOk result (λ o. scratch.new.path.directory ≡ o.job.path) }
        ensures opens { OpensLevel (T.lists self.now.tree.now) (T.gives self.now.tree.now) self.now.options.left_out
            self.now.filters.now job.now result }
    {
        let listing = list_in_parts(threads.rt, self.alloc, self.tree, job.path(), threads.idle);
        self.open_listed(job, listing, scratch)
    }
}
