//! Counting the files that follow a large file of the same directory, with several threads side by side.
ghost use Rattle.std.specs.Prelude.{◌≡◌, ◌-◌, ◌≤◌, IfOk, Vec};
ghost use Rattle.lc_level.specs.CountedNames.{IsCounted};
ghost use Rattle.lc_level.specs.CountedParts.{CountsSome};
ghost use Rattle.lc_level.specs.Classified.{bytes_of};

use crate::FaultLine;
use crate::counting::CountedFiles;
use crate::job::Job;
use crate::level_reader::LevelReader;
use crate::scratch::Scratch;
use crate::threads::in_parts::MOST_HELPERS;
use crate::threads::spare_threads::SpareThreads;
use lc_tree::{Helpers, IdleThreads, Tree};
use std::alloc::AllocError;
use std::thread::Threads;

/// The number of bytes over which a file is large. The files that follow a large file may be large too. Counting a large file takes some
/// milliseconds, many times as long as starting a thread.
const LARGE_FILE: u64 = 16 << 20;

/// Takes as many idle threads as can help with this many files that may be large.
fn take_helpers(idle: &IdleThreads, files: usize) -> Helpers
    ensures { result ≤ idle.now - 1 }
{
    idle.take(files.saturating_sub(1).min(MOST_HELPERS) as u32)
}

impl CountedFiles {
    /// Returns whether the file that was counted last is large.
    fn ends_large(&self) -> bool {
        match self.files.last() {
            Some(file) => file.count.bytes > LARGE_FILE,
            None => false,
        }
    }
}

impl<T: Tree> LevelReader<'_, T> {
    /// Counts the files `names`, in order, up to the first that is large, and returns the rest of the names.
    fn count_until_large(
        &self,
        job: &Job,
        names: Vec<Vec<u8>>,
        absent: Vec<FaultLine>,
        scratch: &mut Scratch,
    ) -> Result<(CountedFiles, Vec<Vec<u8>>), AllocError>
        requires { scratch.old.path.directory ≡ job.now.path }
        ensures same { scratch.new.path.directory ≡ scratch.old.path.directory }
        ensures some { IfOk result (λ r. CountsSome (T.gives self.now.tree.now) self.now.filters.now job.now names.items absent.items
            r.1.items r.0) }
    {
        let mut found = CountedFiles {
            files: Vec::new(self.alloc),
            faults: absent,
        };
        let mut rest = Vec::new(self.alloc);
        for name in names {
            if rest.is_empty() && !found.ends_large() {
                self.count_named(job, name, scratch, &mut found)?;
                continue;
            }
            rest.push(name)?;
        }
        Ok((found, rest))
    }

    /// Like `count`, but if threads are idle, the files that follow a large file are counted in parts side by side.
    pub(crate) fn count_undivided<R: Threads + Sync>(
        &self,
        threads: &SpareThreads<'_, R>,
        job: &Job,
        names: Vec<Vec<u8>>,
        absent: Vec<FaultLine>,
        scratch: &mut Scratch,
    ) -> Result<CountedFiles, AllocError>
        requires { scratch.old.path.directory ≡ job.now.path }
        ensures { IfOk result (IsCounted (T.gives self.now.tree.now) self.now.filters.now job.now (bytes_of names.items) absent.items) }
    {
        let (mut found, rest) = self.count_until_large(job, names, absent, scratch)?;
        let helpers = take_helpers(threads.idle, rest.len());
        let none = Vec::new(self.alloc);
        let later = if helpers.count() == 0 {
            self.count(job, rest, none, scratch)
        } else {
            self.count_side_by_side(threads.rt, &helpers, job, rest, none)
        };
        threads.idle.give_back(helpers);
        found.append(later?)?;
        Ok(found)
    }
}
