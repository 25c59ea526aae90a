//! What a worker does with one directory on a board of atomic words: it reads the directory's atomic word, claims the directory, and
//! finishes it.
ghost use Rattle.std.specs.Prelude.{◌≡◌, ◌<◌, IsSome, None};
ghost use Rattle.lc_board.specs.WordSteps.{HasLooked, TakesStep, low_after, taken_after};
ghost use Rattle.lc_board.specs.{WordsBoard.{EndsClaim, IsPassOf, IsSamePass, TriesClaim, known}, Ending.MayEnd};
ghost use Rattle.lc_board.specs.{declared.answers.Ended.TheVariants.{Returned, Faulted}, Limits.capacity_limit};

use crate::answers::Ended;
use crate::words::Words;
use crate::words::coding::{OPEN, Word, claimed_by, ended_by};
use crate::words::pass::WordsPass;
use crate::words::rule::{End, Look, Take};
use crate::words::view::Slot;

/// Returns the pass's low mark after the worker has read the word of this number and has found the state `found`. All directories with a
/// number below the low mark are finished.
fn next_low(capacity: u32, number: u32, low: u32, found: Word) -> u32
    requires { number < capacity }
    ensures { result ≡ low_after capacity number low found }
{
    if low == number && found.has_ended() && number + 1 < capacity {
        number + 1
    } else {
        low
    }
}

/// Returns the pass's mark of the taken numbers after the worker has read the word of this number and has found the state `found`. Each
/// directory with a number below the mark is finished or claimed.
fn next_taken(number: u32, taken: u32, found: Word) -> u32
    requires { number < capacity_limit }
    ensures { result ≡ taken_after number taken found }
{
    if taken == number && found.is_taken() {
        number + 1
    } else {
        taken
    }
}

impl<J, R> Words<J, R> {
    /// Reads the atomic word of a directory's number, and returns the state that the word stores.
    pub(crate) fn look(&self, pass: &mut WordsPass<J, R>, number: u32) -> Word
        requires board { IsPassOf self.now pass.old }
        requires near { number < self.now.capacity }
        ensures board { IsSamePass pass.old pass.new × (pass.new.holding ≡ pass.old.holding) }
        ensures rule { HasLooked self.now.capacity number result (known pass.old) (known pass.new) }
        ensures steps { TakesStep number (known pass.old) (known pass.new) }
    {
        let shared = &self.table.shared;
        let found = Word::of(shared.load::<Look>(&mut pass.seat, number as usize));
        pass.low = next_low(self.capacity, number, pass.low, found);
        pass.taken = next_taken(number, pass.taken, found);
        found
    }

    /// Claims the directory with this number if it waits for a worker, and returns the directory's job. Otherwise the error is the state
    /// that was found.
    pub(crate) fn try_claim(&self, pass: &mut WordsPass<J, R>, number: u32) -> Result<J, Word>
        requires board { IsPassOf self.now pass.old }
        requires free { pass.old.holding ≡ None }
        requires near { number < self.now.capacity }
        ensures board { IsSamePass pass.old pass.new }
        ensures rule { TriesClaim self.now number pass.old result pass.new }
        ensures steps { TakesStep number (known pass.old) (known pass.new) }
    {
        let shared = &self.table.shared;
        let place = number as usize;
        let new = claimed_by(pass.worker);
        let old = shared.compare_exchange::<Take>(&mut pass.seat, place, OPEN, new);
        let found = Word::of(old);
        if !found.is_open() {
            pass.low = next_low(self.capacity, number, pass.low, found);
            pass.taken = next_taken(number, pass.taken, found);
            return Err(found);
        }
        match shared.exchange(&mut pass.seat, place, Slot::Empty) {
            Slot::Job(job) => {
                pass.holding = Some(number);
                pass.posted = 0;
                pass.taken = next_taken(number, pass.taken, Word::Claimed(pass.worker as u64));
                Ok(job)
            }
            _ => unreachable!(),
        }
    }

    /// Finishes the directory that the worker of the pass has claimed, by adding this row. Waits for no thread, allocates nothing and never
    /// fails.
    pub fn give(&self, pass: &mut WordsPass<J, R>, row: R)
        requires board { IsPassOf self.now pass.old }
        requires holds { IsSome pass.old.holding }
        ensures board { IsSamePass pass.old pass.new × (pass.new.holding ≡ None) }
        ensures rule { EndsClaim self.now pass.old (Returned row) pass.new }
    {
        self.end(pass, Ended::Returned(row));
    }

    /// Finishes the directory that the worker of the pass has claimed, by adding this row, which reports an error. The worker must have
    /// added no child directory under the claim. Waits for no thread, allocates nothing and never fails.
    pub fn fault(&self, pass: &mut WordsPass<J, R>, row: R)
        requires board { IsPassOf self.now pass.old }
        requires holds { IsSome pass.old.holding × (pass.old.posted ≡ 0) }
        ensures board { IsSamePass pass.old pass.new × (pass.new.holding ≡ None) }
        ensures rule { EndsClaim self.now pass.old (Faulted row) pass.new }
    {
        self.end(pass, Ended::Faulted(row));
    }

    /// Finishes the directory that the worker of the pass has claimed, by adding the row in `ended`.
    fn end(&self, pass: &mut WordsPass<J, R>, ended: Ended<R>)
        requires board { IsPassOf self.now pass.old }
        requires holds { IsSome pass.old.holding }
        requires may { MayEnd pass.old.posted ended }
        ensures board { IsSamePass pass.old pass.new × (pass.new.holding ≡ None) }
        ensures rule { EndsClaim self.now pass.old ended pass.new }
    {
        let Some(number) = pass.holding else {
            unreachable!()
        };
        let code = ended_by(&ended);
        self.fill(&mut pass.seat, number, Slot::Row(ended.into_row()));
        let shared = &self.table.shared;
        shared.swap::<End>(&mut pass.seat, number as usize, code);
        pass.holding = None;
        pass.posted = 0;
    }
}
