//! All workers of a walk: running them at the same time, and merging their tallies.
ghost use Rattle.std.specs.Prelude.{◌≡◌, ◌++◌, ◌∷◌, [], List, IfOk, IfSome, map, vec_len};
ghost use Rattle.lc_level.specs.TreeAnswers.{MayAnswer};
ghost use Rattle.lc_walk.specs.BoardPasses.{IsFree, IsPassOf};
ghost use Rattle.lc_walk.specs.Running.{AreFree, HasRunOn, HaveRunOn, AllOver, TalliesAll};
ghost use Rattle.lc_walk.specs.WorkerResults.{TalliesFor};
ghost use Rattle.lc_walk.specs.declared.worker.StopReason.TheVariants.{Over};
ghost use Rattle.lc_walk.specs.Tally.{CountedFile, StandsFor};
ghost use Rattle.lc_walk.specs.WalkOptions.{asked_by};

use crate::options::Options;
use crate::row::Row;
use crate::tally::Tally;
use crate::worker::{StopReason, Worker, WorkerResult};
use lc_board::Shared;
use lc_level::Job;
use lc_tree::{IdleThreads, Tree};
use std::alloc::{AllocError, Global};
use std::sync::Wait;
use std::thread;
use std::thread::Threads;

/// The passes of all workers, and the tally of all files that the workers counted.
#[derive(Drop)]
pub(crate) struct Gathered<P> {
    pub(crate) passes: Vec<P>,
    pub(crate) tally: Tally,
}

/// Runs a worker for each pass, in its own thread if one can be started, and waits for all workers.
pub(crate) fn run_all<B: Shared<Job, Row>, T: Tree, R: Threads + Wait + Sync>(
    rt: &R,
    alloc: Global,
    board: &B,
    tree: &T,
    passes: Vec<B::Pass>,
    options: &Options<'_>,
) -> Result<Vec<WorkerResult<B::Pass>>, AllocError>
    requires { AreFree B.owns B.Pass.view board.now passes.items }
    ensures all { IfOk result (λ v. vec_len v ≡ vec_len passes) }
    ensures each { IfOk result (λ v. HaveRunOn B.owns B.Pass.view board.now (asked_by options.now)
        (MayAnswer (T.lists tree.now) (T.gives tree.now)) passes.items v.items) }
{
    let workers = u32::try_from(passes.len()).unwrap_or(u32::MAX);
    let idle = IdleThreads::all_idle(workers);
    let run = |pass: B::Pass| -> WorkerResult<B::Pass>
        requires { IsPassOf B.owns B.Pass.view board.now IsFree pass }
        ensures { HasRunOn B.owns B.Pass.view board.entry.now (asked_by options.entry.now)
            (MayAnswer (T.lists tree.entry.now) (T.gives tree.entry.now)) pass result }
    { Worker::new(rt, alloc, board, tree, options, &idle).run(pass) };
    thread::map_vec(rt, passes, &run)
}

/// Returns the tally of the files of both tallies, or `None` if an allocation fails or a tally has no room for so many files.
fn merge(first: Tally, second: Tally) -> Option<Tally>
    ensures { IfSome result (λ t. (fs gs : List CountedFile) → StandsFor first fs → StandsFor second gs → StandsFor t (fs ++ gs)) }
{
    if !first.has_room(second.totals().files) {
        return None;
    }
    first.merge(second).ok()
}

/// Adds the pass and the tally of one more worker. Returns `None` if that worker ran out of memory, or if an allocation fails here.
fn join<P: Drop>(gathered: Gathered<P>, worked: WorkerResult<P>) -> Option<Gathered<P>>
    ensures over { IfSome result (λ r. worked.end ≡ Over) }
    ensures pass { IfSome result (λ r. r.passes.items ≡ gathered.passes.items ++ worked.pass ∷ []) }
    ensures tally { IfSome result (λ r. (fs gs : List CountedFile) → StandsFor gathered.tally fs → TalliesFor worked.tally gs →
        StandsFor r.tally (fs ++ gs)) }
{
    let Gathered { mut passes, tally } = gathered;
    let WorkerResult {
        pass,
        end,
        tally: own,
    } = worked;
    let StopReason::Over = end else {
        return None;
    };
    let tally = merge(tally, own?)?;
    passes.push(pass).ok()?;
    Some(Gathered { passes, tally })
}

/// Gathers the passes and the tallies of all workers. Returns `None` if a worker ran out of memory, or if an allocation fails here.
pub(crate) fn gather<P: Drop>(alloc: Global, workers: Vec<WorkerResult<P>>) -> Option<Gathered<P>>
    ensures over { IfSome result (λ r. AllOver workers.items) }
    ensures passes { IfSome result (λ r. r.passes.items ≡ map (λ w. w.pass) workers.items) }
    ensures tally { IfSome result (λ r. TalliesAll workers.items r.tally) }
{
    let mut gathered = Gathered {
        passes: Vec::with_capacity(alloc, workers.len()).ok()?,
        tally: Tally::new(alloc),
    };
    for worked in workers {
        gathered = join(gathered, worked)?;
    }
    Some(gathered)
}
