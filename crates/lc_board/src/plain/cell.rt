//! What a single-threaded board stores for one directory.
ghost use Rattle.std.specs.Prelude.{◌≡◌, ℕ, ◌+◌, ◌<◌, Some, MatchBool};
ghost use Rattle.lc_board.specs.{PlainBoard.posts_in, PlainCalls.{IsOpen, IsHeld, IsPending, cell_of}};
ghost use Rattle.lc_board.specs.{declared.plain.cell.Cell.TheVariants.{Waiting, Held}, Limits.capacity_limit};

use crate::answers::Ended;
use std::mem;

/// What a single-threaded board stores for one directory: the directory's state. The state of a waiting directory has the directory's job,
/// and the state of a finished directory has its row.
#[derive(Drop)]
pub enum Cell<J, R> {
    /// The directory waits for a worker. The field is the directory's job.
    Waiting(J),
    /// This worker has claimed the directory, and has added this many child directories to the board under its claim.
    Held { worker: u32, posts: u32 },
    /// A worker has finished the directory and added this row.
    Done(Ended<R>),
}

impl<J: Drop, R: Drop> Cell<J, R> {
    /// Claims the directory of this cell for the worker, and returns the directory's job. The directory must wait for a worker (`Waiting`).
    pub(crate) fn take_job(&mut self, worker: u32) -> J
        requires { IsOpen (Some self.old) }
        ensures here { self.old ≡ Waiting result }
        ensures cell { self.new ≡ Held worker 0 }
    {
        match mem::replace(self, Cell::Held { worker, posts: 0 }) {
            Cell::Waiting(job) => job,
            Cell::Held { .. } => unreachable!(),
            Cell::Done(_) => unreachable!(),
        }
    }

    /// Adds 1 to the count of child directories that were added under the claim of this directory. The directory must be claimed (`Held`).
    pub(crate) fn count_post(&mut self)
        requires held { IsHeld (Some self.old) }
        requires few { posts_in (Some self.old) < capacity_limit }
        ensures { (w n : ℕ) × (self.old ≡ Held w n) × (self.new ≡ Held w (n + 1)) }
    {
        match self {
            Cell::Held { posts, .. } => *posts += 1,
            Cell::Waiting(_) => unreachable!(),
            Cell::Done(_) => unreachable!(),
        }
    }

    /// Returns the row of the directory of this cell. The directory must be finished (`Done`).
    pub(crate) fn into_row(self) -> Ended<R>
        requires { ¬ IsPending (Some self) }
        ensures { cell_of result ≡ self }
    {
        match self {
            Cell::Done(row) => row,
            Cell::Waiting(_) => unreachable!(),
            Cell::Held { .. } => unreachable!(),
        }
    }
}

impl<J, R> Cell<J, R> {
    /// Returns how many child directories were added under the claim of this directory. The directory must be claimed (`Held`).
    pub(crate) fn posts(&self) -> u32
        requires { IsHeld (Some self.now) }
        ensures { result ≡ posts_in (Some self.now) }
    {
        match self {
            Cell::Held { posts, .. } => *posts,
            Cell::Waiting(_) => unreachable!(),
            Cell::Done(_) => unreachable!(),
        }
    }

    /// Returns whether the directory is not finished: it waits for a worker, or a worker has claimed it.
    pub(crate) fn is_pending(&self) -> bool
        ensures { MatchBool result (IsPending (Some self.now)) (¬ IsPending (Some self.now)) }
    {
        match self {
            Cell::Waiting(_) => true,
            Cell::Held { .. } => true,
            Cell::Done(_) => false,
        }
    }
}
