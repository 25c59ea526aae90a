//! The whole walk over a tree: making the board that the workers share, running the workers, and making the report.
ghost use Rattle.std.specs.Prelude.{◌≡◌, ◌≤◌, [], true};
ghost use Rattle.lc_level.specs.TreeAnswers.{MayAnswer};
ghost use Rattle.lc_walk.specs.BoardAnswers.{WalkAnswers};
ghost use Rattle.lc_walk.specs.SmallTops.{MayBeSmall};
ghost use Rattle.lc_walk.specs.WalkOptions.{AreWithinLimits, asked_by, top_of};
ghost use Rattle.lc_walk.specs.Walks.{Walks};

use crate::closing::finish;
use crate::options::Options;
use crate::report::Report;
use crate::row::Row;
use crate::walk_fault::WalkFault;
use crate::workers::{Gathered, gather, run_all};
use lc_board::{Shared, Words};
use lc_level::Job;
use lc_tree::{ReadFault, Tree};
use std::alloc::Global;
use std::sync::Wait;
use std::thread::Threads;

/// Walks a tree with this many workers, which share a board of the type `B` with `room` numbers.
fn walk_by<B: Shared<Job, Row>, T: Tree, R: Threads + Wait + Sync>(
    rt: &R,
    alloc: Global,
    tree: &T,
    options: &Options<'_>,
    workers: u32,
    room: u32,
) -> Result<Report, WalkFault>
    requires limits { AreWithinLimits options.now }
    requires workers { (1 ≤ workers) × (workers ≤ options.now.threads) }
    requires room { (1 ≤ room) × (room ≤ options.now.max_dirs) }
    ensures { WalkAnswers (MayAnswer (T.lists tree.now) (T.gives tree.now)) (asked_by options.now)
        room workers (top_of options.now) B.promises result }
{
    let Ok(top) = Job::top(alloc, options.filters) else {
        return Err(WalkFault::Memory);
    };
    let Ok((board, passes)) = B::start(alloc, room, workers, top) else {
        return Err(WalkFault::Memory);
    };
    let Ok(workers) = run_all(rt, alloc, &board, tree, passes, options) else {
        return Err(WalkFault::Memory);
    };
    let Some(gathered) = gather(alloc, workers) else {
        return Err(WalkFault::Memory);
    };
    let Gathered { passes, tally } = gathered;
    finish::<B, T>(alloc, board, passes, options.lists, tally)
}

/// The bytes that are reserved while several workers run, for a single worker that may have to walk after them. The C library keeps up to
/// 40 MB of stacks of threads that ended. Once a block of up to 32 MB is freed, the library does not map later blocks of that size
/// separately, and copies a vector that grows.
const RESERVE: usize = 64 << 20;

/// Walks a tree with `options.threads` workers, which share a board of the type `B`. Keeps `RESERVE` bytes allocated during the walk.
fn walk_by_all<B: Shared<Job, Row>, T: Tree, R: Threads + Wait + Sync>(
    rt: &R,
    alloc: Global,
    tree: &T,
    options: &Options<'_>,
) -> Result<Report, WalkFault>
    requires limits { AreWithinLimits options.now }
    ensures { WalkAnswers (MayAnswer (T.lists tree.now) (T.gives tree.now)) (asked_by options.now)
        options.now.max_dirs options.now.threads (top_of options.now) B.promises result }
{
    let Ok(reserve) = Vec::<u8>::with_capacity(alloc, RESERVE) else {
        return Err(WalkFault::Memory);
    };
    let answer = walk_by::<B, T, R>(rt, alloc, tree, options, options.threads, options.max_dirs);
    drop(reserve);
    answer
}

/// Walks a tree with `options.threads` workers, which share a board of the type `B`. If a walk with several workers runs out of memory, one
/// worker alone walks the tree again. The second walk needs no memory for the stacks of many threads.
pub fn walk_on<B: Shared<Job, Row>, T: Tree, R: Threads + Wait + Sync>(
    rt: &R,
    alloc: Global,
    tree: &T,
    options: &Options<'_>,
) -> Result<Report, WalkFault>
    requires limits { AreWithinLimits options.now }
    ensures { WalkAnswers (MayAnswer (T.lists tree.now) (T.gives tree.now)) (asked_by options.now)
        options.now.max_dirs options.now.threads (top_of options.now) B.promises result }
{
    if options.threads > 1 {
        match walk_by_all::<B, T, R>(rt, alloc, tree, options) {
            Err(WalkFault::Memory) => {}
            answer => return answer,
        }
    }
    walk_by::<B, T, R>(rt, alloc, tree, options, 1, options.max_dirs)
}

/// Walks a tree with up to `options.threads` threads. The report is that of a recursive walk. All listings and file contents that
/// this recursive walk reads are results that `tree` may return.
///
/// ```
/// let report = walk(&rt, rt.alloc(), &tree, &options)?;
/// assert_eq!(report.totals.files, report.files.len() as u64);
/// ```
pub fn walk<T: Tree, R: Threads + Wait + Sync>(
    rt: &R,
    alloc: Global,
    tree: &T,
    options: &Options<'_>,
) -> Result<Report, WalkFault>
    requires limits { AreWithinLimits options.now }
    ensures { Walks (T.lists tree.now) (T.gives tree.now) options.now result }
{
    walk_on::<Words<Job, Row>, T, R>(rt, alloc, tree, options)
}

/// Returns whether a tree's top can't be read or has at most one entry, so that several workers would not walk it faster than one. Returns
/// false if an allocation fails.
fn is_small<T: Tree>(alloc: Global, tree: &T) -> bool
    ensures { result ≡ true → MayBeSmall (T.has_names tree.now []) }
{
    match tree.names(alloc, b"") {
        Ok(Some(names)) => names.len() <= 1,
        Ok(None) | Err(ReadFault::Memory) => false,
        Err(_) => true,
    }
}

/// Like `walk`, but first with smaller boards, which take less time to make: with a board of one number if the top has at most one entry,
/// and with a board of `few` numbers if that is fewer than the tree may have directories. A tree that such a board is too small for is
/// walked again.
pub fn walk_first<T: Tree, R: Threads + Wait + Sync>(
    rt: &R,
    alloc: Global,
    tree: &T,
    options: &Options<'_>,
    few: u32,
) -> Result<Report, WalkFault>
    requires limits { AreWithinLimits options.now }
    ensures { Walks (T.lists tree.now) (T.gives tree.now) options.now result }
{
    if is_small(alloc, tree) {
        if let Ok(report) = walk_by::<Words<Job, Row>, T, R>(rt, alloc, tree, options, 1, 1) {
            return Ok(report);
        }
    }
    let threads = options.threads;
    if 1 <= few && few < options.max_dirs {
        if let Ok(report) = walk_by::<Words<Job, Row>, T, R>(
            rt, alloc, tree, options, threads, few,
        ) {
            return Ok(report);
        }
    }
    walk(rt, alloc, tree, options)
}
