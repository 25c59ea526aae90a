//! Methods that record, in a worker's pass, what the worker did. The pass gives the worker access to a locked board.
ghost use Rattle.std.specs.Prelude.{◌≡◌, ◌≢◌, ℕ, ◌<◌, ◌≤◌, ◌+◌, None, OnOk, Ok, vec_len, vec_capacity};
ghost use Rattle.lc_board.specs.Pass.{holding, new_pass, filled, refusing, after_claim, after_post, after_give, after_fault};
ghost use Rattle.lc_board.specs.{LockedBoard.told, Limits.capacity_limit};
ghost use Rattle.lc_board.specs.declared.answers.Claim.TheVariants as answer;

use crate::event::Event;
use crate::locked::pass::LockedPass;
use std::alloc::{AllocError, Global};
use std::snapshot::Snapshot;

impl<J, R> LockedPass<J, R> {
    /// Makes the pass of a worker that has done nothing yet.
    pub(crate) fn new(alloc: Global, worker: u32) -> LockedPass<J, R>
        ensures { told result ≡ new_pass worker }
    {
        LockedPass {
            worker,
            held: None,
            posts: 0,
            full: false,
            refused: false,
            notes: Vec::new(alloc),
        }
    }

    pub(crate) fn notes(&self) -> &[Event<Snapshot<J>, Snapshot<R>>]
        ensures { result.now ≡ self.now.notes.items }
    {
        self.notes.as_slice()
    }

    /// Reserves memory in the pass for two events: the event of the next call, and the later event that finishes the claimed directory.
    pub(crate) fn make_room(&mut self) -> Result<(), AllocError>
        ensures same { told self.new ≡ told self.old }
        ensures posts { self.new.posts ≡ self.old.posts }
        ensures room { OnOk result (vec_len self.new.notes + 2 ≤ vec_capacity self.new.notes) }
    {
        self.notes.reserve(2)
    }

    /// Records that a claim returned `Claim::Memory`.
    pub(crate) fn refuse(&mut self)
        ensures { told self.new ≡ refusing (told self.old) }
    {
        self.refused = true;
    }

    /// Records that a post returned `PostFault::Full`.
    pub(crate) fn fill(&mut self)
        ensures { told self.new ≡ filled (told self.old) }
    {
        self.full = true;
    }

    /// Records the event that the worker claimed the directory with this number and got this job.
    #[tactic(auto, using(crate::proofs::NewestFirst::mine_push))]
    pub(crate) fn note_claim(&mut self, number: u32, job: &J)
        requires { vec_len self.old.notes + 2 ≤ vec_capacity self.old.notes }
        ensures { told self.new ≡ after_claim (told self.old) (answer.Got number job.now) }
    {
        self.notes.push_reserved(Event::Claim {
            worker: self.worker,
            number,
            job: Snapshot::of(job),
        });
        self.held = Some(number);
        self.posts = 0;
    }

    /// Records the event that a claim returned `Claim::Over`.
    #[tactic(auto, using(crate::proofs::NewestFirst::mine_push))]
    pub(crate) fn note_over(&mut self)
        requires room { vec_len self.old.notes + 2 ≤ vec_capacity self.old.notes }
        requires free { holding (told self.old) ≡ None }
        ensures { told self.new ≡ after_claim (told self.old) answer.Over }
    {
        self.notes.push_reserved(Event::Over {
            worker: self.worker,
        });
    }

    /// Records the event that the worker added a child directory with this number and this job to the board.
    #[tactic(auto, using(crate::proofs::NewestFirst::mine_push))]
    pub(crate) fn note_post(&mut self, number: u32, job: Snapshot<J>)
        requires room { vec_len self.old.notes + 2 ≤ vec_capacity self.old.notes }
        requires posts { self.old.posts < capacity_limit }
        requires held { holding (told self.old) ≢ None }
        ensures { told self.new ≡ after_post (told self.old) job.value (Ok number) }
    {
        let Some(parent) = self.held else {
            unreachable!()
        };
        self.notes.push_reserved(Event::Post {
            worker: self.worker,
            parent,
            number,
            job,
        });
        self.posts += 1;
    }

    /// Records the event that the worker finished the claimed directory by adding this row.
    #[tactic(auto, using(crate::proofs::NewestFirst::mine_push))]
    pub(crate) fn note_give(&mut self, row: &R)
        requires held { holding (told self.old) ≢ None }
        ensures { told self.new ≡ after_give (told self.old) row.now }
    {
        let Some(number) = self.held else {
            unreachable!()
        };
        self.notes.push_reserved(Event::Return {
            worker: self.worker,
            number,
            row: Snapshot::of(row),
        });
        self.held = None;
        self.posts = 0;
    }

    /// Records the event that the worker finished the claimed directory by adding this row, which reports an error.
    #[tactic(auto, using(crate::proofs::NewestFirst::mine_push))]
    pub(crate) fn note_fault(&mut self, row: &R)
        requires held { holding (told self.old) ≢ None }
        ensures { told self.new ≡ after_fault (told self.old) row.now }
    {
        let Some(number) = self.held else {
            unreachable!()
        };
        self.notes.push_reserved(Event::Fault {
            worker: self.worker,
            number,
            row: Snapshot::of(row),
        });
        self.held = None;
        self.posts = 0;
    }
}
