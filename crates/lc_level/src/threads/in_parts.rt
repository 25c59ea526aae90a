//! Counting the files of a large directory, with several threads side by side.
ghost use Rattle.std.specs.Prelude.{◌≡◌, ◌++◌, ◌+◌, ◌-◌, ◌≤◌, [], IfOk, OnOk, vec_len};
ghost use Rattle.lc_level.specs.CountedNames.{IsCounted};
ghost use Rattle.lc_level.specs.CountedParts.{HaveCounted, Joins};
ghost use Rattle.lc_level.specs.Classified.{bytes_of};

use crate::FaultLine;
use crate::counting::CountedFiles;
use crate::job::Job;
use crate::level_reader::LevelReader;
use crate::scratch::Scratch;
use crate::threads::spare_threads::SpareThreads;
use lc_tree::{Helpers, IdleThreads, Tree, cut_names};
use std::alloc::{AllocError, Global};
use std::thread;
use std::thread::Threads;

/// The least number of files in a part, unless the files follow a large file. Counting this many small files takes about a millisecond,
/// several times as long as starting a thread and waiting for its end. So a directory with fewer than twice this many files, none of them
/// large, is counted as a whole.
const PART_FILES: usize = 256;

/// The greatest number of threads that help with one directory: a walk has at most this many workers besides the one that counts the
/// directory.
pub(crate) const MOST_HELPERS: usize = 15;

// Takes as many idle threads as can help with this many files.
fn take_helpers(idle: &IdleThreads, files: usize) -> Helpers
    ensures { result ≤ idle.now - 1 }
{
    let parts = files / PART_FILES;
    idle.take(parts.saturating_sub(1).min(MOST_HELPERS) as u32)
}

// What all parts found, in order, after the faults of absent paths.
fn joined(
    alloc: Global,
    parts: Vec<Result<CountedFiles, AllocError>>,
    absent: Vec<FaultLine>,
) -> Result<CountedFiles, AllocError>
    ensures { IfOk result (Joins parts.items absent.items) }
{
    let mut found = CountedFiles {
        files: Vec::new(alloc),
        faults: absent,
    };
    for part in parts {
        found.append(part?)?;
    }
    Ok(found)
}

impl CountedFiles {
    // Adds the files that were counted after these.
    pub(crate) fn append(&mut self, later: CountedFiles) -> Result<(), AllocError>
        ensures files { OnOk result (self.new.files.items ≡ self.old.files.items ++ later.files.items) }
        ensures faults { OnOk result (self.new.faults.items ≡ self.old.faults.items ++ later.faults.items) }
    {
        let CountedFiles {
            mut files,
            mut faults,
        } = later;
        self.files.append(&mut files)?;
        self.faults.append(&mut faults)?;
        Ok(())
    }
}

impl<T: Tree> LevelReader<'_, T> {
    // Counts the files of each run, with buffers of its own and with a thread for each run but one. It starts no more threads than were
    // taken.
    fn count_runs<R: Threads + Sync>(
        &self,
        rt: &R,
        job: &Job,
        runs: Vec<Vec<Vec<u8>>>,
        _helpers: &Helpers,
    ) -> Result<Vec<Result<CountedFiles, AllocError>>, AllocError>
        requires { vec_len runs ≤ _helpers.now + 1 }
        ensures all { IfOk result (λ parts. vec_len parts ≡ vec_len runs) }
        ensures each { IfOk result (λ parts. HaveCounted (T.gives self.now.tree.now) self.now.filters.now job.now runs.items parts.items) }
    {
        let run = |names: Vec<Vec<u8>>| -> Result<CountedFiles, AllocError>
            ensures { IfOk result (IsCounted (T.gives self.entry.now.tree.now) self.entry.now.filters.now job.entry.now
                (bytes_of names.items) []) }
        {
            let mut scratch = Scratch::new(self.alloc)?;
            let Ok(()) = scratch.path.enter(job.path()) else {
                return Err(AllocError);
            };
            self.count(job, names, Vec::new(self.alloc), &mut scratch)
        };
        thread::map_vec(rt, runs, &run)
    }

    // Counts the files of these names in a part for each helper, and one more.
    pub(crate) fn count_side_by_side<R: Threads + Sync>(
        &self,
        rt: &R,
        helpers: &Helpers,
        job: &Job,
        names: Vec<Vec<u8>>,
        absent: Vec<FaultLine>,
    ) -> Result<CountedFiles, AllocError>
        ensures { IfOk result (IsCounted (T.gives self.now.tree.now) self.now.filters.now job.now (bytes_of names.items) absent.items) }
    {
        let runs = cut_names(self.alloc, names, helpers)?;
        let counted = self.count_runs(rt, job, runs, helpers)?;
        let found = joined(self.alloc, counted, absent)?;
        Ok(found)
    }

    /// Like `count`, but divides many files into parts: one part for each idle thread that can help, and one more part. The parts are
    /// counted at the same time. Files that follow a file of over 16 MiB are divided into parts even if they are few.
    ///
    /// Each part allocates a buffer of its own.
    pub fn count_divided<R: Threads + Sync>(
        &self,
        threads: &SpareThreads<'_, R>,
        job: &Job,
        names: Vec<Vec<u8>>,
        absent: Vec<FaultLine>,
        scratch: &mut Scratch,
    ) -> Result<CountedFiles, AllocError>
        requires { scratch.old.path.directory ≡ job.now.path }
        ensures { IfOk result (IsCounted (T.gives self.now.tree.now) self.now.filters.now job.now (bytes_of names.items) absent.items) }
    {
        let helpers = take_helpers(threads.idle, names.len());
        let found = if helpers.count() == 0 {
            self.count_undivided(threads, job, names, absent, scratch)
        } else {
            self.count_side_by_side(threads.rt, &helpers, job, names, absent)
        };
        threads.idle.give_back(helpers);
        found
    }
}
