//! A worker of a walk.
//!
//! - `serving`: the work on a directory that the worker has claimed, and adding a row to the board: what the worker found there
//! - `posting`: posting the child directories to the board, so that any worker may claim them
//! - `adding`: adding the counted files to the worker's tally
//! - `backoff`: waiting while there is no directory to claim
ghost use Rattle.std.specs.Prelude.{◌≡◌};
ghost use Rattle.lc_level.specs.TreeAnswers.{MayAnswer};
ghost use Rattle.lc_walk.specs.BoardPasses.{IsFree, IsPassOf};
ghost use Rattle.lc_walk.specs.Serving.{EndsAs};
ghost use Rattle.lc_walk.specs.WalkOptions.{asked_by};
ghost use Rattle.lc_walk.specs.WorkerResults.{HasWorked};

mod adding;
mod backoff;
mod posting;
mod serving;

use crate::options::Options;
use crate::row::Row;
use crate::tally::Tally;
use crate::worker::backoff::Backoff;
use lc_board::{Claim, Shared};
use lc_level::{Job, LevelReader, ReaderOptions, Scratch, SpareThreads};
use lc_tree::{IdleThreads, Tree};
use std::alloc::Global;
use std::sync::{Wait, WaitMethods};
use std::thread::Threads;

/// Why a worker has stopped.
#[derive(Clone, Copy, Debug, Drop, PartialEq, Eq)]
pub enum StopReason {
    /// The worker found that the walk was over: no directory waited to be claimed, and no worker was working on a directory.
    Over,
    /// An allocation failed while the worker tried to claim a directory.
    Memory,
}

/// The result of a worker that has stopped.
#[derive(Drop)]
pub struct WorkerResult<P> {
    pub pass: P,
    pub end: StopReason,
    /// The tally of the files in the directories that the worker listed, or `None` if an allocation failed while the worker worked on a
    /// directory.
    pub tally: Option<Tally>,
}

/// A worker of a walk. It claims directories from the board that all workers share, lists each directory, and counts the directory's files.
///
/// ```
/// let options = Options::new(1, 65_536, &filters);
/// let idle = IdleThreads::all_idle(1);
/// let worker = Worker::new(&rt, alloc, &board, &tree, &options, &idle);
/// let WorkerResult { pass, end, tally } = worker.run(pass);
/// ```
#[derive(Drop)]
pub struct Worker<'w, 'o, B, T, W> {
    rt: &'w W,
    alloc: Global,
    board: &'w B,
    reader: LevelReader<'w, T>,
    options: &'w Options<'o>,
    idle: &'w IdleThreads,
    ghost selects: { reader.filters.now ≡ (asked_by options.now).filters },
    ghost keeps: { reader.options.left_out ≡ options.now.lists.left_out },
    ghost notes: { reader.options.named ≡ options.now.named },
}

impl<'w, 'o, B, T, W> Worker<'w, 'o, B, T, W> {
    /// Makes a worker. All workers share `idle`, the count of idle workers, which already counts this worker as idle. Idle workers help a
    /// worker that has a large directory.
    pub fn new(
        rt: &'w W,
        alloc: Global,
        board: &'w B,
        tree: &'w T,
        options: &'w Options<'o>,
        idle: &'w IdleThreads,
    ) -> Worker<'w, 'o, B, T, W>
        ensures board { result.board.now ≡ board.entry.now }
        ensures tree { result.reader.tree.now ≡ tree.entry.now }
        ensures options { result.options.now ≡ options.entry.now }
    {
        let reading = ReaderOptions {
            left_out: options.lists.left_out,
            texts: false,
            named: options.named,
        };
        Worker {
            rt,
            alloc,
            board,
            reader: LevelReader::new(alloc, tree, options.filters, reading),
            options,
            idle,
        }
    }

    /// Returns the threads that may help with a large directory.
    fn threads(&self) -> SpareThreads<'w, W> {
        SpareThreads {
            rt: self.rt,
            idle: self.idle,
        }
    }
}

impl<B: Shared<Job, Row>, T: Tree, W: Threads + Wait + Sync> Worker<'_, '_, B, T, W> {
    /// Claims directories and works on each, until no directory is left or a claim runs out of memory.
    pub fn run(&self, pass: B::Pass) -> WorkerResult<B::Pass>
        requires { IsPassOf B.owns B.Pass.view self.now.board.now IsFree pass }
        ensures pass { IsPassOf B.owns B.Pass.view self.now.board.now IsFree result.pass }
        ensures end { EndsAs result.end (B.Pass.view result.pass) }
        ensures worked { HasWorked (asked_by self.now.options.now)
            (MayAnswer (T.lists self.now.reader.tree.now) (T.gives self.now.reader.tree.now))
            (B.Pass.view pass) (B.Pass.view result.pass) result.tally }
    {
        let mut pass = pass;
        let mut scratch = Scratch::new(self.alloc).ok();
        let mut tally = Some(Tally::new(self.alloc));
        let mut backoff = Backoff::new(self.idle);
        for _ in self.rt.forever() {
            let end = match self.board.claim(self.rt, &mut pass) {
                Claim::Got(_, job) => {
                    backoff.reset();
                    self.serve_or_break_off(&mut pass, job, &mut scratch, &mut tally);
                    continue;
                }
                Claim::Later => {
                    backoff.wait(self.rt);
                    continue;
                }
                Claim::Over => StopReason::Over,
                Claim::Memory => StopReason::Memory,
            };
            backoff.reset();
            return WorkerResult { pass, end, tally };
        }
        unreachable!()
    }
}
