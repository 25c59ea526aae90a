//! A single-threaded board of directories. The calls `claim`, `post`, `give` and `fault` take the index of the worker for which they act.
ghost use Rattle.std.specs.Prelude.{◌≡◌, ◌≢◌, ℕ, ◌<◌, ◌≤◌, ◌^◌, [], None, map, slice_set, true, false, IfOk, IfErr, IfSome, IfNone};
ghost use Rattle.std.specs.Prelude.{MatchBool};
ghost use Rattle.lc_board.specs.{Ending.{MayEnd, end_event}, LegalHistory.IsOver, RowsInPlace.InPlace};
ghost use Rattle.lc_board.specs.PlainBoard.{IsAfter, IsFull, Adds, first_board, workers_of, held_by, posts_by, cell_at};
ghost use Rattle.lc_board.specs.PlainCalls.{AnswersClaim, AnswersPost, RefusesRows, cell_of};
ghost use Rattle.lc_board.specs.PlainCalls.{NoneOpen, NoneHeld, IsLeastPending, NonePending};
ghost use Rattle.lc_board.specs.{PlainCalls.IsPending, declared.event.Event.TheVariants.{Return, Fault}};
ghost use Rattle.lc_board.specs.Limits.{capacity_limit, workers_limit};

use crate::answers::{Claim, CloseFault, Closed, Ended, PostFault};
use std::alloc::{AllocError, Global};
use std::marker::Model;

mod cell;
mod scans;

use cell::Cell;
use scans::{all_ended, first_pending, is_any_held};

/// A single-threaded board, which has a number for each directory. In contracts the board's value is its capacity, the number of the
/// directory that each worker has claimed, and a list of cells. The cell at an index stores the state of the directory whose number is this
/// index.
#[derive(Drop)]
pub struct Plain<J, R> {
    capacity: u32,
    /// For each worker, at the worker's index: the number of the directory that the worker has claimed and not finished.
    held: Vec<Option<u32>>,
    cells: Vec<Cell<J, R>>,
    /// The least number of a directory that waits for a worker. If no directory waits, the least unused number.
    next: u32,
}

impl<J, R> Model for Plain<J, R> {
    ghost use Rattle.lc_board.specs.PlainBoard.{Board};

    ghost Value = { Board J R };

    ghost use Rattle.lc_board.specs.PlainFields.{IsSound};

    ghost view = { λ p. record { capacity = p.capacity; held = p.held.items; cells = p.cells.items } };

    ghost invariant = { λ p. IsSound p.next (record { capacity = p.capacity; held = p.held.items; cells = p.cells.items }) };
}

impl<J: Drop, R: Drop> Plain<J, R> {
    /// Makes a board on which only the root directory, number 0, waits for a worker, with the job `root`. If an allocation fails, the job
    /// is dropped.
    pub fn start(
        alloc: Global,
        capacity: u32,
        workers: u32,
        root: J,
    ) -> Result<Plain<J, R>, AllocError>
        requires capacity { (1 ≤ capacity) × (capacity ≤ capacity_limit) }
        requires workers { (1 ≤ workers) × (workers ≤ workers_limit) }
        ensures { IfOk result (λ b. (b ≡ first_board capacity workers root) × IsAfter root [] b) }
    {
        let mut held = Vec::with_capacity(alloc, workers as usize)?;
        for _ in 0..workers {
            held.push(None)?;
        }
        let mut cells = Vec::new(alloc);
        cells.push(Cell::Waiting(root))?;
        Ok(Plain {
            capacity,
            held,
            cells,
            next: 0,
        })
    }

    /// Claims a directory for a worker that has no claim: of the directories that wait for a worker, the one with the least number.
    /// Allocates nothing, and never returns `Claim::Memory`.
    pub fn claim(&mut self, worker: u32) -> Claim<J>
        requires worker { worker < workers_of self.old }
        requires free { held_by self.old worker ≡ None }
        ensures { AnswersClaim worker self.old result self.new }
    {
        let number = self.next;
        if (number as usize) < self.cells.len() {
            let job = self.cells[number as usize].take_job(worker);
            self.held[worker as usize] = Some(number);
            self.next = number + 1;
            return Claim::Got(number, job);
        }
        if is_any_held(&self.held) {
            return Claim::Later;
        }
        Claim::Over
    }

    /// Adds a child of the directory that the worker has claimed to the board, with this job. Returns the child directory's number: the
    /// least unused number.
    pub fn post(&mut self, worker: u32, job: J) -> Result<u32, PostFault<J>>
        requires worker { worker < workers_of self.old }
        requires holds { held_by self.old worker ≢ None }
        ensures { AnswersPost worker self.old job result self.new }
    {
        let Some(parent) = self.held[worker as usize] else {
            unreachable!()
        };
        let number = self.cells.len();
        if number >= self.capacity as usize {
            return Err(PostFault::Full(job));
        }
        if self.cells.reserve(1).is_err() {
            return Err(PostFault::Memory(job));
        }
        self.cells[parent as usize].count_post();
        self.cells.push_reserved(Cell::Waiting(job));
        Ok(number as u32)
    }

    /// Finishes the directory that the worker has claimed, by adding this row. Allocates nothing.
    pub fn give(&mut self, worker: u32, row: R)
        requires worker { worker < workers_of self.old }
        requires holds { held_by self.old worker ≢ None }
        ensures event { IfSome (held_by self.old worker) (λ i. Adds self.old (Return worker i row) self.new) }
        ensures free { self.new.held ≡ slice_set self.old.held worker None }
    {
        self.end(worker, Ended::Returned(row));
    }

    /// Finishes the directory that the worker has claimed, by adding this row, which reports an error. The worker must have added no child
    /// directory under the claim. Allocates nothing.
    pub fn fault(&mut self, worker: u32, row: R)
        requires worker { worker < workers_of self.old }
        requires holds { held_by self.old worker ≢ None }
        requires none { posts_by self.old worker ≡ 0 }
        ensures event { IfSome (held_by self.old worker) (λ i. Adds self.old (Fault worker i row) self.new) }
        ensures free { self.new.held ≡ slice_set self.old.held worker None }
    {
        self.end(worker, Ended::Faulted(row));
    }

    /// Finishes the directory that the worker has claimed, by adding the row in `ended`. Allocates nothing.
    pub(crate) fn end(&mut self, worker: u32, ended: Ended<R>)
        requires worker { worker < workers_of self.old }
        requires holds { held_by self.old worker ≢ None }
        requires may { MayEnd (posts_by self.old worker) ended }
        ensures event { IfSome (held_by self.old worker) (λ i. Adds self.old (end_event worker i ended) self.new) }
        ensures free { self.new.held ≡ slice_set self.old.held worker None }
    {
        let Some(number) = self.held[worker as usize] else {
            unreachable!()
        };
        self.cells[number as usize] = Cell::Done(ended);
        self.held[worker as usize] = None;
    }

    /// Returns whether all directories on the board are finished.
    pub fn is_over(&self) -> bool
        ensures over { result ≡ true → NoneOpen self.now × NoneHeld self.now }
        ensures left { result ≡ false → (k : ℕ) × IsPending (cell_at self.now k) }
    {
        if (self.next as usize) < self.cells.len() {
            return false;
        }
        !is_any_held(&self.held)
    }

    /// Returns the row of each directory, at the index of the directory's number. On an error the rows are dropped.
    pub fn into_rows(self, alloc: Global) -> Result<Closed<R>, CloseFault>
        ensures rows { IfOk result (λ c. map cell_of c.rows.items ≡ self.cells) }
        ensures placed { IfOk result (λ c. (root : J) (h : _) → IsAfter root h self → IsOver h × InPlace root h c.rows.items) }
        ensures fault { IfErr result (RefusesRows self) }
    {
        let Plain { cells, .. } = self;
        if let Some(number) = first_pending(&cells) {
            return Err(CloseFault::Unfinished(number));
        }
        match all_ended(alloc, cells) {
            Ok(rows) => Ok(Closed { rows }),
            Err(_) => Err(CloseFault::Memory),
        }
    }

    pub(crate) fn workers(&self) -> u32
        requires { workers_of self.now < 2 ^ 32 }
        ensures { result ≡ workers_of self.now }
    {
        self.held.len() as u32
    }

    /// Returns whether the board has as many directories as its capacity allows.
    pub(crate) fn is_full(&self) -> bool
        ensures { MatchBool result (IsFull self.now) (¬ IsFull self.now) }
    {
        self.cells.len() >= self.capacity as usize
    }

    pub(crate) fn capacity(&self) -> u32
        ensures { result ≡ self.now.capacity }
    {
        self.capacity
    }

    /// Returns the number of the directory that a worker has claimed and not finished.
    pub(crate) fn held_by(&self, worker: u32) -> Option<u32>
        requires { worker < workers_of self.now }
        ensures { result ≡ held_by self.now worker }
    {
        self.held[worker as usize]
    }

    /// Returns how many child directories a worker has added to the board under its present claim.
    pub(crate) fn posts_by(&self, worker: u32) -> u32
        requires worker { worker < workers_of self.now }
        requires holds { held_by self.now worker ≢ None }
        ensures { result ≡ posts_by self.now worker }
    {
        let Some(number) = self.held[worker as usize] else {
            unreachable!()
        };
        self.cells[number as usize].posts()
    }

    /// Returns the least number of a directory that is not finished: it waits for a worker, or a worker has claimed it.
    pub(crate) fn first_pending(&self) -> Option<u32>
        ensures some { IfSome result (IsLeastPending self.now) }
        ensures none { IfNone result (NonePending self.now) }
    {
        first_pending(&self.cells)
    }
}
