//! Functions that make a board of atomic words, and the passes that give its workers access to it.
ghost use Rattle.std.specs.Prelude.{◌≡◌, ◌<◌, ◌≤◌, ◌∷◌, replicate, IfOk, Some};
ghost use Rattle.lc_board.specs.declared.words.{coding.Word.TheVariants.{Absent, Open}, view.Slot.TheVariants.{Empty, Job}};
ghost use Rattle.lc_board.specs.{WordCode.code, WordSteps.{view_before_split, kept_by_split, given_by_split}};
ghost use Rattle.lc_board.specs.{WordsBoard.{IsNewPass, IsPassOf, IsSamePass, known}, Limits.{capacity_limit, workers_limit}};

use crate::words::Words;
use crate::words::coding::{ABSENT, OPEN};
use crate::words::newest::Newest;
use crate::words::pass::WordsPass;
use crate::words::rule::{BoardSetup, SplitOrMerge};
use crate::words::view::Slot;
use atomic_table::Table;
use std::alloc::{AllocError, Global};
use std::snapshot::Snapshot;

fn new_words(alloc: Global, others: u32) -> Result<Vec<u64>, AllocError>
    ensures { IfOk result (λ v. v.items ≡ code Open ∷ replicate others (code Absent)) }
{
    let mut row = Vec::with_capacity(alloc, others as usize + 1)?;
    row.push(OPEN)?;
    for _ in 0..others {
        row.push(ABSENT)?;
    }
    Ok(row)
}

fn new_slots<J: Drop, R: Drop>(
    alloc: Global,
    root: J,
    others: u32,
) -> Result<Vec<Slot<J, R>>, AllocError>
    ensures { IfOk result (λ v. v.items ≡ (Job root) ∷ replicate others Empty) }
{
    let mut row = Vec::with_capacity(alloc, others as usize + 1)?;
    row.push(Slot::Job(root))?;
    for _ in 0..others {
        row.push(Slot::Empty)?;
    }
    Ok(row)
}

impl<J: Drop, R: Drop> Words<J, R> {
    /// Makes a board on which only the root directory, number 0, waits for a worker, with the job `root`. Also makes the pass of worker 0.
    pub(crate) fn open(
        alloc: Global,
        capacity: u32,
        workers: u32,
        root: J,
    ) -> Result<(Words<J, R>, WordsPass<J, R>), AllocError>
        requires capacity { (1 ≤ capacity) × (capacity ≤ capacity_limit) }
        requires workers { (1 ≤ workers) × (workers ≤ workers_limit) }
        ensures board { IfOk result
            (λ b. (b.0.capacity ≡ capacity) × (b.0.workers ≡ workers) × (b.0.table.shared.key.root.value ≡ root)) }
        ensures pass { IfOk result (λ b. IsNewPass b.0 0 (view_before_split (Some root) workers) b.1) }
    {
        let setup = BoardSetup {
            root: Snapshot::of(&root),
            workers,
        };
        let words = new_words(alloc, capacity - 1)?;
        let slots = new_slots(alloc, root, capacity - 1)?;
        match Table::new(alloc, words.as_slice(), slots, &setup) {
            Ok((table, seat)) => {
                let pass = WordsPass {
                    seat,
                    worker: 0,
                    holding: None,
                    posted: 0,
                    front: 1,
                    low: 0,
                    taken: 0,
                    newest: Newest::new(),
                    full: false,
                };
                Ok((
                    Words {
                        table,
                        capacity,
                        workers,
                        alloc,
                    },
                    pass,
                ))
            }
            Err(_) => Err(AllocError),
        }
    }
}

impl<J, R> Words<J, R> {
    /// Makes the pass of the next worker, `worker`, by splitting the pass of worker 0, which is `pass`.
    pub(crate) fn another(&self, pass: &mut WordsPass<J, R>, worker: u32) -> WordsPass<J, R>
        requires board { IsPassOf self.now pass.old }
        requires next { (0 < worker) × (worker < self.now.workers)
            × ((known pass.old).made ≡ worker) × ((known pass.old).workers ≡ self.now.workers) }
        ensures same { IsSamePass pass.old pass.new × (pass.new.holding ≡ pass.old.holding)
            × (known pass.new ≡ kept_by_split (known pass.old)) }
        ensures other { IsNewPass self.now worker (given_by_split (known pass.old)) result }
    {
        let seat = self.table.shared.split_seat::<SplitOrMerge>(&mut pass.seat);
        WordsPass {
            seat,
            worker,
            holding: None,
            posted: 0,
            front: pass.front,
            low: 0,
            taken: 0,
            newest: Newest::new(),
            full: false,
        }
    }
}
