//! Tests in which worker threads fill a board with directories. The jobs of all directories share two values, each through an `Arc`.
ghost use Rattle.std.specs.Prelude.{◌≡◌, ◌≢◌, ◌≤◌, ◌<◌, ℕ, None, IfOk, slice_index_or, vec_len};
ghost use Rattle.lc_board.specs.Pass.{holding};
ghost use Rattle.lc_board.specs.Limits.{capacity_limit, workers_limit};

use lc_board::{Claim, CloseFault, Ended, Locked, PostFault, Shared, Token, Words};
use std::alloc::{AllocError, Global};
use std::process::Abort;
use std::sync::{Arc, Wait};
use std::test::Fail;
use std::thread;
use std::thread::Threads;

/// How many child directories a worker adds under each directory, as long as the board has unused numbers.
const CHILDREN: u8 = 3;

/// The maximum number of names in a path. Without this limit, paths could grow with the size of the board, since workers may visit their
/// newest child directories first.
const DEPTH: usize = 16;

/// A directory to be read.
#[derive(Drop)]
struct Job {
    path: Vec<u8>,
    ignored: Arc<Vec<u8>>,
    attributes: Arc<Vec<u8>>,
}

/// A directory that was read: its number on the board, and its job.
#[derive(Drop)]
struct Row {
    number: u32,
    job: Job,
}

impl Job {
    fn top(alloc: Global) -> Result<Job, AllocError> {
        Ok(Job {
            path: Vec::new(alloc),
            ignored: Arc::new(alloc, Vec::new(alloc))?,
            attributes: Arc::new(alloc, Vec::new(alloc))?,
        })
    }

    /// Returns the job of the child directory with this name.
    fn child(&self, name: u8) -> Result<Job, AllocError> {
        let mut path = self.path.clone()?;
        path.push(name)?;
        Ok(Job {
            path,
            ignored: self.ignored.clone()?,
            attributes: self.attributes.clone()?,
        })
    }
}

/// Adds the child directory with this name to the board. If memory runs out, tries again, until the child directory is added or the board
/// is full.
fn post_child<B: Shared<Job, Row>, W: Wait>(
    rt: &W,
    board: &B,
    pass: &mut B::Pass,
    job: &Job,
    name: u8,
)
    requires pass { B.owns board.now pass.old }
    requires holds { holding (B.Pass.view pass.old) ≢ None }
    ensures pass { B.owns board.now pass.new }
    ensures worker { (B.Pass.view pass.new).worker ≡ (B.Pass.view pass.old).worker }
    ensures holds { holding (B.Pass.view pass.new) ≡ holding (B.Pass.view pass.old) }
{
    for _ in rt.forever() {
        let Ok(child) = job.child(name) else {
            continue;
        };
        match board.post(rt, pass, child) {
            Err(PostFault::Memory(_)) => {}
            _ => return,
        }
    }
}

/// Adds the child directories of the claimed directory to the board, unless the path of the claimed directory already has `DEPTH` names.
fn post_children<B: Shared<Job, Row>, W: Wait>(rt: &W, board: &B, pass: &mut B::Pass, job: &Job)
    requires pass { B.owns board.now pass.old }
    requires holds { holding (B.Pass.view pass.old) ≢ None }
    ensures pass { B.owns board.now pass.new }
    ensures worker { (B.Pass.view pass.new).worker ≡ (B.Pass.view pass.old).worker }
    ensures holds { holding (B.Pass.view pass.new) ≡ holding (B.Pass.view pass.old) }
{
    if job.path.len() == DEPTH {
        return;
    }
    for name in 0..CHILDREN {
        post_child(rt, board, pass, job, name);
    }
}

/// Does the work of one worker: claims directories, adds the child directories of each to the board, and finishes each directory. The row
/// of a directory has its number and its job. Returns the pass when all directories on the board are finished.
fn work<B: Shared<Job, Row>, W: Wait>(rt: &W, board: &B, pass: B::Pass) -> B::Pass
    requires pass { B.owns board.now pass }
    requires free { holding (B.Pass.view pass) ≡ None }
    ensures pass { B.owns board.now result }
    ensures worker { (B.Pass.view result).worker ≡ (B.Pass.view pass).worker }
{
    let mut pass = pass;
    for _ in rt.forever() {
        match board.claim(rt, &mut pass) {
            Claim::Got(number, job) => {
                post_children(rt, board, &mut pass, &job);
                board.give(rt, &mut pass, Row { number, job });
            }
            Claim::Later => thread::yield_now(),
            Claim::Memory => {}
            Claim::Over => break,
        }
    }
    pass
}

/// Starts a thread for each pass, and returns the passes after all threads have ended.
fn work_all<B: Shared<Job, Row>, R: Threads + Wait + Sync>(
    rt: &R,
    board: &B,
    passes: Vec<B::Pass>,
) -> Result<Vec<B::Pass>, AllocError>
    requires { (i : ℕ) (p : _) → i < vec_len passes → p ≡ slice_index_or passes.items i p
        → B.owns board.now p × (holding (B.Pass.view p) ≡ None) }
    ensures len { IfOk result (λ v. vec_len v ≡ vec_len passes) }
    ensures each { IfOk result (λ v. (i : ℕ) (p : _) (q : _) → i < vec_len passes
        → B.owns board.now (slice_index_or v.items i q)
        × ((B.Pass.view (slice_index_or v.items i q)).worker ≡ (B.Pass.view (slice_index_or passes.items i p)).worker)) }
{
    let run = |pass: B::Pass| -> B::Pass
        requires { B.owns board.now pass × (holding (B.Pass.view pass) ≡ None) }
        ensures { B.owns board.entry.now result × ((B.Pass.view result).worker ≡ (B.Pass.view pass).worker) }
    { work(rt, board, pass) };
    thread::map_vec(rt, passes, &run)
}

/// Checks that each row is at the index of its directory's number, and that only the root's path is empty.
fn are_own<R: Abort>(rt: &R, capacity: u32, rows: &[Ended<Row>]) {
    assert!(rt; rows.len() == capacity as usize);
    for (number, row) in rows.iter().enumerate() {
        let own = match row {
            Ended::Returned(row) => {
                row.number as usize == number && row.job.path.is_empty() == (number == 0)
            }
            Ended::Faulted(_) => false,
        };
        assert!(rt; own, "{number}");
    }
}

/// Fills a board of this capacity with this many worker threads, closes the board, and checks its rows.
fn fill<B: Shared<Job, Row>, R: Threads + Wait + Abort + Sync>(
    rt: &R,
    alloc: Global,
    capacity: u32,
    workers: u32,
) -> Result<(), AllocError>
    requires capacity { (1 ≤ capacity) × (capacity ≤ capacity_limit) }
    requires workers { (1 ≤ workers) × (workers ≤ workers_limit) }
{
    let root = Job::top(alloc)?;
    let (board, passes) = B::start(alloc, capacity, workers, root)?;
    let passes = work_all(rt, &board, passes)?;
    match board.close(passes) {
        Ok(closed) => are_own(rt, capacity, &closed.rows),
        Err(CloseFault::Memory) => return Err(AllocError),
        Err(fault) => assert!(rt; false, "{fault:?}"),
    }
    Ok(())
}

#[test]
fn sixteen_threads_fill_locked(rt: HostRuntime) -> Result<(), Fail> {
    fill::<Locked<Job, Row>, HostRuntime>(&rt, rt.alloc(), 65_536, 16)?;
    Ok(())
}

#[test]
fn two_and_sixteen_threads_fill_words(rt: HostRuntime) -> Result<(), Fail> {
    fill::<Words<Job, Row>, HostRuntime>(&rt, rt.alloc(), 65_536, 2)?;
    fill::<Words<Job, Row>, HostRuntime>(&rt, rt.alloc(), 65_536, 16)?;
    Ok(())
}
