//! A board that worker threads share under one lock.
//!
//! The value under the lock has the board's history: the events of all workers. Each worker also has a pass, which gives it access to the
//! board and stores the worker's own events. When a thread takes the lock, contracts guarantee only the invariant of the value under the
//! lock. They do not say that the history has the events in the thread's pass. So `close` compares the history with the events in each
//! pass.
ghost use Rattle.std.specs.Prelude.{◌≡◌, ◌≢◌, ℕ, ◌≤◌, Some, IfOk, IfErr, map, slice_get, vec_len};
ghost use Rattle.lc_board.specs.{ClosedBoard.{Settled, RefusesClose}, LockedBoard.told, RecordedCalls.locked_promises};
ghost use Rattle.lc_board.specs.Limits.{capacity_limit, workers_limit};

use crate::answers::{Claim, CloseFault, Closed, PostFault};
use crate::shared::{Shared, Token};
use std::alloc::{AllocError, Global};
use std::snapshot::Snapshot;
use std::sync::{Mutex, Wait};

mod compare;
pub mod pass;
mod recorded;

use pass::LockedPass;
use recorded::Recorded;

/// A board under one lock. Its contracts do not promise that `close` returns each row at the index of its directory's number.
#[derive(Drop)]
pub struct Locked<J, R> {
    alloc: Global,
    capacity: u32,
    workers: u32,
    recorded: Mutex<Recorded<J, R>>,
    ghost small: { (capacity ≤ capacity_limit) × (workers ≤ workers_limit) },
}

impl<J: Drop + Send, R: Drop + Send> Shared<J, R> for Locked<J, R> {
    type Pass = LockedPass<J, R>;

    ghost capacity_of = { λ b. b.capacity };

    ghost workers_of = { λ b. b.workers };

    ghost is_root = { λ b root. Unit {0} };

    ghost owns = { λ b p. Unit {0} };

    ghost promises = { locked_promises };

    fn start(
        alloc: Global,
        capacity: u32,
        workers: u32,
        root: J,
    ) -> Result<(Locked<J, R>, Vec<LockedPass<J, R>>), AllocError> {
        let mut passes = Vec::with_capacity(alloc, workers as usize)?;
        for worker in 0..workers {
            passes.push(LockedPass::new(alloc, worker))?;
        }
        let recorded = Recorded::start(alloc, capacity, workers, root)?;
        Ok((
            Locked {
                alloc,
                capacity,
                workers,
                recorded: Mutex::new(recorded),
            },
            passes,
        ))
    }

    fn claim<W: Wait>(&self, rt: &W, pass: &mut LockedPass<J, R>) -> Claim<J> {
        if pass.make_room().is_err() {
            pass.refuse();
            return Claim::Memory;
        }
        let worker = pass.worker();
        let answer = self.recorded.lock(rt).claim(worker);
        match &answer {
            Claim::Got(number, job) => pass.note_claim(*number, job),
            Claim::Later => {}
            Claim::Over => pass.note_over(),
            Claim::Memory => pass.refuse(),
        }
        answer
    }

    fn post<W: Wait>(
        &self,
        rt: &W,
        pass: &mut LockedPass<J, R>,
        job: J,
    ) -> Result<u32, PostFault<J>> {
        let Some(parent) = pass.holding() else {
            unreachable!()
        };
        // Who has posted as many jobs as there are numbers has used them all.
        if pass.posted() >= self.capacity {
            pass.fill();
            return Err(PostFault::Full(job));
        }
        let mut recorded = self.recorded.lock(rt);
        if recorded.is_full() {
            pass.fill();
            return Err(PostFault::Full(job));
        }
        if pass.make_room().is_err() {
            return Err(PostFault::Memory(job));
        }
        let worker = pass.worker();
        let shown = Snapshot::of(&job);
        let answer = recorded.post(worker, parent, job);
        match &answer {
            Ok(number) => pass.note_post(*number, shown),
            Err(PostFault::Full(_)) => pass.fill(),
            Err(PostFault::Memory(_)) => {}
        }
        answer
    }

    fn give<W: Wait>(&self, rt: &W, pass: &mut LockedPass<J, R>, row: R) {
        let Some(number) = pass.holding() else {
            unreachable!()
        };
        pass.note_give(&row);
        let worker = pass.worker();
        // The board under the lock has this claim; if it had not, `close` would find that the pass has another history.
        let _ = self.recorded.lock(rt).give(worker, number, row);
    }

    fn fault<W: Wait>(&self, rt: &W, pass: &mut LockedPass<J, R>, row: R) {
        let Some(number) = pass.holding() else {
            unreachable!()
        };
        pass.note_fault(&row);
        let worker = pass.worker();
        // As in `give`.
        let _ = self.recorded.lock(rt).fault(worker, number, row);
    }

    fn close(self, passes: Vec<LockedPass<J, R>>) -> Result<Closed<R>, CloseFault>
        requires all { vec_len passes ≡ self.workers }
        requires each { (w : ℕ) (p : _) → slice_get passes.items w ≡ Some p → (told p).worker ≡ w }
        ensures settled { IfOk result (λ c. (root : J) → Unit {0}
            → Settled self.capacity self.workers root locked_promises (map told passes.items) c.rows.items) }
        ensures fault { IfErr result (RefusesClose self.capacity self.workers locked_promises (map told passes.items)) }
    {
        let Locked {
            alloc,
            capacity,
            workers,
            recorded,
        } = self;
        let recorded = recorded.into_inner();
        match recorded.close(alloc, capacity, workers, passes.as_slice()) {
            Ok(closed) => Ok(closed),
            Err(fault) => Err(fault),
        }
    }
}
