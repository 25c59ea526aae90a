//! The value under the lock of a locked board: a single-threaded board and its history, the list of the events of all workers.
ghost use Rattle.std.specs.Prelude.{◌≡◌, ℕ, ◌≤◌, [], IfOk, IfErr, MatchBool, map, length};
ghost use Rattle.lc_board.specs.{LockedBoard.told, Bare.bare, Ending.{MayEnd, end_event}, PlainBoard.{first_board, posts_by, IsFull}};
ghost use Rattle.lc_board.specs.RecordedCalls.{Holds, MayFault, Records, RefusesRecorded, locked_promises, RecordsClaim, RecordsPost};
ghost use Rattle.lc_board.specs.{RecordedCalls.RecordsEnd, ClosedBoard.{Settled, RefusesClose}};
ghost use Rattle.lc_board.specs.{declared.event.Event.TheVariants.{Return, Fault}, Limits.{capacity_limit, workers_limit}};

use crate::answers::{Claim, CloseFault, Closed, Ended, PostFault};
use crate::event::{BareEvent, Event};
use crate::locked::compare::first_mismatch;
use crate::locked::pass::LockedPass;
use crate::plain::Plain;
use crate::shared::Token;
use std::alloc::{AllocError, Global};
use std::marker::Model;

/// A single-threaded board with its history, the list of the events of all workers. In contracts the newest event is the first of the list.
#[derive(Drop)]
pub struct Recorded<J, R> {
    plain: Plain<J, R>,
    history: Vec<BareEvent>,
}

impl<J, R> Model for Recorded<J, R> {
    ghost use Rattle.std.specs.Prelude.{vec_len, vec_capacity};
    ghost use Rattle.lc_board.specs.{NewestFirst.newest_first, RecordedBoard.{Record, KeepsRoom}};

    ghost Value = { Record J R };

    ghost view = { λ l. record { board = l.plain; history = newest_first l.history.items } };

    ghost invariant = { λ l. KeepsRoom l.plain l.history.items (vec_len l.history) (vec_capacity l.history) };
}

impl<J: Drop, R: Drop> Recorded<J, R> {
    /// Makes a board on which only the root directory, number 0, waits for a worker, with the job `root`. The history is empty.
    pub fn start(
        alloc: Global,
        capacity: u32,
        workers: u32,
        root: J,
    ) -> Result<Recorded<J, R>, AllocError>
        requires capacity { (1 ≤ capacity) × (capacity ≤ capacity_limit) }
        requires workers { (1 ≤ workers) × (workers ≤ workers_limit) }
        ensures { IfOk result (λ r. (r.board ≡ first_board capacity workers root) × (r.history ≡ [])) }
    {
        let plain = Plain::start(alloc, capacity, workers, root)?;
        Ok(Recorded {
            plain,
            history: Vec::new(alloc),
        })
    }

    /// Claims a directory for a worker. First reserves memory in the history for the event of this claim. Also reserves memory for one more
    /// event for each worker: the event that finishes the worker's claimed directory.
    pub fn claim(&mut self, worker: u32) -> Claim<J>
        ensures { RecordsClaim worker self.old result self.new }
    {
        let workers = self.plain.workers();
        if worker >= workers || self.plain.held_by(worker).is_some() {
            return Claim::Later;
        }
        if self.history.reserve(workers as usize + 1).is_err() {
            return Claim::Memory;
        }
        let answer = self.plain.claim(worker);
        match &answer {
            Claim::Got(number, _) => self.history.push_reserved(Event::Claim {
                worker,
                number: *number,
                job: (),
            }),
            Claim::Over => self.history.push_reserved(Event::Over { worker }),
            Claim::Later => {}
            Claim::Memory => {}
        }
        answer
    }

    /// Returns whether the board has as many directories as its capacity allows.
    pub(crate) fn is_full(&self) -> bool
        ensures { MatchBool result (IsFull self.now.board) (¬ IsFull self.now.board) }
    {
        self.plain.is_full()
    }

    /// Adds a child of the directory with the number `parent` to the board, with this job. Reserves memory in the history for the event of
    /// this post and, as `claim` does, for the event that finishes each worker's claimed directory. If the worker has not claimed the
    /// directory `parent`, or if the board is full, the error is `PostFault::Full`, even if memory has also run out.
    pub fn post(&mut self, worker: u32, parent: u32, job: J) -> Result<u32, PostFault<J>>
        ensures { RecordsPost worker parent self.old job result self.new }
    {
        if !self.holds(worker, parent) || self.plain.is_full() {
            return Err(PostFault::Full(job));
        }
        let workers = self.plain.workers();
        if self.history.reserve(workers as usize + 1).is_err() {
            return Err(PostFault::Memory(job));
        }
        match self.plain.post(worker, job) {
            Ok(number) => {
                self.history.push_reserved(Event::Post {
                    worker,
                    parent,
                    number,
                    job: (),
                });
                Ok(number)
            }
            Err(fault) => Err(fault),
        }
    }

    /// Finishes the claimed directory with this number by adding this row. Returns false if the worker has not claimed the directory.
    pub fn give(&mut self, worker: u32, number: u32, row: R) -> bool
        ensures { RecordsEnd (Holds worker number self.old.board) self.old (Return worker number row) result self.new }
    {
        if !self.holds(worker, number) {
            return false;
        }
        self.end(worker, number, Ended::Returned(row));
        true
    }

    /// Finishes the claimed directory with this number by adding this row, which reports an error. Returns false if the worker has not
    /// claimed the directory, or has added child directories under the claim.
    pub fn fault(&mut self, worker: u32, number: u32, row: R) -> bool
        ensures { RecordsEnd (MayFault worker number self.old.board) self.old (Fault worker number row) result self.new }
    {
        if !self.holds(worker, number) || self.plain.posts_by(worker) != 0 {
            return false;
        }
        self.end(worker, number, Ended::Faulted(row));
        true
    }

    /// Returns the event that the worker finished the directory with this number, without the row.
    fn event_of_end(worker: u32, number: u32, ended: &Ended<R>) -> BareEvent
        ensures { result ≡ bare {J = J} {R = R} (end_event worker number ended.now) }
    {
        match ended {
            Ended::Returned(_) => Event::Return {
                worker,
                number,
                row: (),
            },
            Ended::Faulted(_) => Event::Fault {
                worker,
                number,
                row: (),
            },
        }
    }

    /// Finishes the worker's claimed directory, which has this number, by adding the row in `ended`. Adds the event to the history.
    fn end(&mut self, worker: u32, number: u32, ended: Ended<R>)
        requires holds { Holds worker number self.old.board }
        requires may { MayEnd (posts_by self.old.board worker) ended }
        ensures { Records self.old (end_event worker number ended) self.new }
    {
        let event = Recorded::<J, R>::event_of_end(worker, number, &ended);
        self.plain.end(worker, ended);
        self.history.push_reserved(event);
    }

    /// Returns whether the worker is one of the board's workers and has claimed the directory with this number.
    fn holds(&self, worker: u32, number: u32) -> bool
        ensures { MatchBool result (Holds worker number self.now.board) (¬ Holds worker number self.now.board) }
    {
        worker < self.plain.workers() && self.plain.held_by(worker) == Some(number)
    }

    /// Closes the board and returns the row of each directory. Fails if some directory is not finished, or if a worker's events in the
    /// history differ from the events in the worker's pass.
    pub fn close(
        self,
        alloc: Global,
        capacity: u32,
        workers: u32,
        passes: &[LockedPass<J, R>],
    ) -> Result<Closed<R>, CloseFault>
        requires workers { workers ≤ workers_limit }
        requires all { length passes.now ≡ workers }
        ensures settled { IfOk result
            (λ c. (root : J) → Settled capacity workers root locked_promises (map told passes.now) c.rows.items) }
        ensures fault { IfErr result (RefusesClose capacity workers locked_promises (map told passes.now)) }
        ensures refused { IfErr result (RefusesRecorded self capacity workers (map told passes.now)) }
    {
        let Recorded { plain, history } = self;
        if plain.capacity() != capacity || plain.workers() != workers {
            return Err(CloseFault::Memory);
        }
        if let Some(number) = plain.first_pending() {
            return Err(CloseFault::Unfinished(number));
        }
        if let Some(worker) = first_mismatch(history.as_slice(), passes) {
            return Err(CloseFault::Mismatch(worker));
        }
        match plain.into_rows(alloc) {
            Ok(closed) => Ok(closed),
            Err(fault) => Err(fault),
        }
    }
}
