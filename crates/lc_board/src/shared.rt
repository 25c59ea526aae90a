//! The trait of boards, through which worker threads share directories.
//!
//! Each worker has a pass, which gives it access to the board and records its events. With the pass the worker claims a directory, adds
//! child directories to the board, and finishes the directory by adding a row. If `close` succeeds, its contract states that the events of
//! all passes form one legal history. In a legal history each event is allowed after the events before it.
ghost use Rattle.std.specs.Prelude.{◌≡◌, ◌≢◌, ℕ, ◌≤◌, Some, None, IfOk, IfErr, slice_get, vec_len, map};
ghost use Rattle.lc_board.specs.Pass.{Pass, holding, posted, new_pass, after_claim, after_post, after_give, after_fault, job_back};
ghost use Rattle.lc_board.specs.{ClosedBoard.{Promises, Settled, RefusesClose}, Limits.{capacity_limit, workers_limit}};

use crate::answers::{Claim, CloseFault, Closed, PostFault};
use std::alloc::{AllocError, Global};
use std::sync::Wait;

/// The pass of one worker, which gives the worker access to a board.
pub trait Token<J, R> {
    /// The value of a pass in contracts: its worker, the worker's events, whether a post returned `PostFault::Full`, and whether a claim
    /// returned `Claim::Memory`.
    ghost view: { Self → Pass J R };

    /// Returns the index of the worker to which the pass belongs. The first worker has index 0.
    fn worker(&self) -> u32
        ensures { result ≡ (view self.now).worker };

    /// Returns the number of the directory that the worker has claimed and not yet finished.
    fn holding(&self) -> Option<u32>
        ensures { result ≡ holding (view self.now) };

    /// Returns how many child directories the worker has added to the board under its present claim.
    fn posted(&self) -> u32
        ensures { result ≡ posted (view self.now) };
}

/// A board that worker threads share. Its calls may wait for another thread, and `ensures` clauses describe only calls that return. Callers
/// need no bound besides `B: Shared<J, R>`: the supertraits let them share the board between threads and drop it.
pub trait Shared<J, R>: Sized + Sync + Drop {
    type Pass: Token<J, R> + Send + Drop;

    /// The capacity of the board: how many directories it can have.
    ghost capacity_of: { Self → ℕ };

    /// The number of workers that share the board.
    ghost workers_of: { Self → ℕ };

    /// States that this is the job of the root directory. For a board whose contracts promise nothing about that job, this is true of each
    /// job.
    ghost is_root: { Self → J → Type 0 };

    /// States that the pass belongs to this board. For `Locked` this is true of each pass.
    ghost owns: { Self → Self.Pass → Type 0 };

    /// What `close` promises for a board of this type.
    ghost promises: { Promises };

    /// Makes a board on which only the root directory, number 0, waits for a worker, with the job `root`. Returns the board, and a pass for
    /// each worker in the workers' order. If an allocation fails, the job is dropped.
    fn start(
        alloc: Global,
        capacity: u32,
        workers: u32,
        root: J,
    ) -> Result<(Self, Vec<Self::Pass>), AllocError>
        requires capacity { (1 ≤ capacity) × (capacity ≤ capacity_limit) }
        requires workers { (1 ≤ workers) × (workers ≤ workers_limit) }
        ensures board { IfOk result (λ b. (Self.capacity_of b.0 ≡ capacity) × (Self.workers_of b.0 ≡ workers) × Self.is_root b.0 root) }
        ensures count { IfOk result (λ b. vec_len b.1 ≡ workers) }
        ensures passes { IfOk result (λ b. (w : ℕ) (p : Self.Pass) → slice_get b.1.items w ≡ Some p
            → owns b.0 p × (Self.Pass.view p ≡ new_pass w)) };

    /// Claims a directory for the worker of the pass, if the call finds one that waits for a worker. The worker must have no claim.
    fn claim<W: Wait>(&self, rt: &W, pass: &mut Self::Pass) -> Claim<J>
        requires pass { owns self.now pass.old }
        requires free { holding (Self.Pass.view pass.old) ≡ None }
        ensures pass { owns self.now pass.new }
        ensures mine { Self.Pass.view pass.new ≡ after_claim (Self.Pass.view pass.old) result };

    /// Adds a child directory of the claimed directory to the board, with this job. Returns the child directory's number.
    fn post<W: Wait>(&self, rt: &W, pass: &mut Self::Pass, job: J) -> Result<u32, PostFault<J>>
        requires pass { owns self.now pass.old }
        requires holds { holding (Self.Pass.view pass.old) ≢ None }
        ensures pass { owns self.now pass.new }
        ensures mine { Self.Pass.view pass.new ≡ after_post (Self.Pass.view pass.old) job result }
        ensures back { IfErr result (λ f. job_back f ≡ job) };

    /// Finishes the directory that the worker of the pass has claimed, by adding this row.
    fn give<W: Wait>(&self, rt: &W, pass: &mut Self::Pass, row: R)
        requires pass { owns self.now pass.old }
        requires holds { holding (Self.Pass.view pass.old) ≢ None }
        ensures pass { owns self.now pass.new }
        ensures mine { Self.Pass.view pass.new ≡ after_give (Self.Pass.view pass.old) row };

    /// Finishes the directory that the worker of the pass has claimed, by adding this row, which reports an error. The worker must have
    /// added no child directory under the claim.
    fn fault<W: Wait>(&self, rt: &W, pass: &mut Self::Pass, row: R)
        requires pass { owns self.now pass.old }
        requires holds { holding (Self.Pass.view pass.old) ≢ None }
        requires none { posted (Self.Pass.view pass.old) ≡ 0 }
        ensures pass { owns self.now pass.new }
        ensures mine { Self.Pass.view pass.new ≡ after_fault (Self.Pass.view pass.old) row };

    /// Closes the board and returns the row of each directory. Fails if some directory is not finished. The passes must be all passes of
    /// the board, in their workers' order. On an error the rows are dropped.
    fn close(self, passes: Vec<Self::Pass>) -> Result<Closed<R>, CloseFault>
        requires all { vec_len passes ≡ Self.workers_of self }
        requires each { (w : ℕ) (p : Self.Pass) → slice_get passes.items w ≡ Some p → owns self p × ((Self.Pass.view p).worker ≡ w) }
        ensures settled { IfOk result (λ c. (root : J) → Self.is_root self root
            → Settled (Self.capacity_of self) (Self.workers_of self) root promises
            (map (λ p. Self.Pass.view p) passes.items) c.rows.items) }
        ensures fault { IfErr result (RefusesClose (Self.capacity_of self) (Self.workers_of self) promises
            (map (λ p. Self.Pass.view p) passes.items)) };
}
