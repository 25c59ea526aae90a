//! How a worker claims a directory on a board of atomic words, where an atomic word stores the state of each directory. A claim first
//! tries, by one atomic exchange, to claim a directory from a list: the directories that the worker has most recently added to the board.
//! If no directory is claimed in this way, the claim reads the words once, in the order of the directories' numbers.
//!
//! The worker's pass, which gives it access to the board, has two marks. All directories with a number below the low mark are finished, and
//! each directory with a number below the mark `taken` is finished or claimed. The claim begins to read at the low mark, and stops at the
//! first directory that it claims, or at the first unused number. A directory is busy if a worker has claimed it or is about to add it to
//! the board. At the first busy directory the claim jumps to the mark `taken`, if this mark is higher. So a claim takes at most two steps
//! on each word, a read and an exchange. This is also true of the word of the directory from the list: if the exchange on it fails, the
//! directory is claimed or finished, since the worker itself added it to the board. So a later read of the word leads to no exchange.
ghost use Rattle.std.specs.Prelude.{◌≡◌, ◌≢◌, ◌+◌, ◌<◌, ◌≤◌, None, IfSome, IfNone, cond};
ghost use Rattle.lc_board.specs.{Limits.capacity_limit, WordSteps.{Extends, is_last_word, larger}};
ghost use Rattle.lc_board.specs.WordsBoard.{AnswersWordsClaim, IsPassOf, IsSamePass, TriesClaim, known};
ghost use Rattle.lc_board.specs.WordBounds.{IsVisited, TakesSteps, TriesNewest};

use crate::answers::Claim;
use crate::words::Words;
use crate::words::coding::Word;
use crate::words::pass::WordsPass;

/// Returns whether this number is unused, or is the last number of the board and its directory is finished. In both cases no number after
/// this one is used. `found` is the state that the number's word stores.
fn is_last(capacity: u32, number: u32, found: Word) -> bool
    requires { number < capacity }
    ensures { result ≡ is_last_word capacity number found }
{
    found.is_absent() || (found.has_ended() && number + 1 == capacity)
}

/// Returns the number whose word a claim reads next, usually `number + 1`. If the claim has met a busy directory (claimed, or about to be
/// added), it jumps to `taken` if that is higher. Each directory with a number below `taken` is finished or claimed.
fn number_after(number: u32, taken: u32, busy: bool) -> u32
    requires { number < capacity_limit }
    ensures { result ≡ cond busy (larger (number + 1) taken) (number + 1) }
{
    if busy && number + 1 < taken {
        taken
    } else {
        number + 1
    }
}

impl<J, R> Words<J, R> {
    /// Reads the word of the directory with this number, and tries to claim the directory if it waits for a worker. Returns the directory's
    /// job. If the directory was not claimed, the error is the state that was found.
    fn visit(&self, pass: &mut WordsPass<J, R>, number: u32) -> Result<J, Word>
        requires board { IsPassOf self.now pass.old }
        requires free { pass.old.holding ≡ None }
        requires near { number < self.now.capacity }
        ensures board { IsSamePass pass.old pass.new }
        ensures rule { TriesClaim self.now number pass.old result pass.new }
        ensures steps { TakesSteps (λ k n. IsVisited self.now.capacity (known pass.old) k n × (k ≢ number → n ≡ 0))
            (known pass.old) (known pass.new) }
    {
        let found = self.look(pass, number);
        if !found.is_open() {
            return Err(found);
        }
        self.try_claim(pass, number)
    }

    /// Tries to claim the directory with the highest number in `newest`, the pass's list of the directories that the worker has most
    /// recently added. If the attempt fails, the list is emptied, since other workers have probably begun to claim its directories.
    fn claim_newest(&self, pass: &mut WordsPass<J, R>) -> Option<Claim<J>>
        requires board { IsPassOf self.now pass.old }
        requires free { pass.old.holding ≡ None }
        ensures board { IsSamePass pass.old pass.new }
        ensures some { IfSome result (AnswersWordsClaim self.now.capacity (known pass.old) (known pass.new) pass.new.holding) }
        ensures none { IfNone result ((pass.new.holding ≡ None) × Extends (known pass.old) (known pass.new)) }
        ensures steps { TriesNewest (known pass.old) (known pass.new) }
    {
        let number = pass.newest.take()?;
        // Below the low mark all has ended, and the number at the mark is left to the way up.
        if number <= pass.low || number >= self.capacity {
            return None;
        }
        match self.try_claim(pass, number) {
            Ok(job) => Some(Claim::Got(number, job)),
            Err(_) => {
                pass.newest.clear();
                None
            }
        }
    }

    /// Reads the words of the board from the pass's low mark upward, and claims the first directory found that waits for a worker.
    fn claim_lowest(&self, pass: &mut WordsPass<J, R>) -> Claim<J>
        requires board { IsPassOf self.now pass.old }
        requires free { pass.old.holding ≡ None }
        ensures board { IsSamePass pass.old pass.new }
        ensures rule { AnswersWordsClaim self.now.capacity (known pass.old) (known pass.new) pass.new.holding result }
        ensures steps { TakesSteps (IsVisited self.now.capacity (known pass.old)) (known pass.old) (known pass.new) }
    {
        let mut number = pass.low;
        let mut busy = false;
        while number < self.capacity {
            let found = match self.visit(pass, number) {
                Ok(job) => return Claim::Got(number, job),
                Err(found) => found,
            };
            if !busy && is_last(self.capacity, number, found) {
                return Claim::Over;
            }
            if found.is_absent() {
                return Claim::Later;
            }
            busy |= found.is_busy();
            number = number_after(number, pass.taken, busy);
        }
        Claim::Later
    }

    /// Claims a directory that waits for a worker, and returns the directory's number and job. Takes at most two steps on each directory's
    /// word, waits for no thread, allocates nothing and never returns `Claim::Memory`.
    pub fn claim(&self, pass: &mut WordsPass<J, R>) -> Claim<J>
        requires board { IsPassOf self.now pass.old }
        requires free { pass.old.holding ≡ None }
        ensures board { IsSamePass pass.old pass.new }
        ensures rule { AnswersWordsClaim self.now.capacity (known pass.old) (known pass.new) pass.new.holding result }
        ensures steps { TakesSteps (λ k n. n ≤ 2) (known pass.old) (known pass.new) }
    {
        match self.claim_newest(pass) {
            Some(answer) => answer,
            None => self.claim_lowest(pass),
        }
    }
}
