//! The implementation of the trait `Shared` for `Words`, the board of atomic words.
ghost use Rattle.std.specs.Prelude.{◌≡◌, ◌≢◌, ◌≤◌, ℕ, [], None, Some, IfOk, IfErr, map, slice_get, vec_len};
ghost use Rattle.lc_board.specs.{ClosedBoard.{Settled, RefusesClose}, WordClose.words_promises};
ghost use Rattle.lc_board.specs.Pass.{holding, posted, new_pass, after_claim, after_post, after_give, after_fault, job_back};
ghost use Rattle.lc_board.specs.WordsBoard.{AnswersWordsClaim, AnswersWordsPost, EndsClaim, Owns, known, told};
ghost use Rattle.lc_board.specs.WordBounds.{TakesSteps, most_in_post};
ghost use Rattle.lc_board.specs.declared.{answers.Ended.TheVariants.{Returned, Faulted}, words.pass.WordsPass.WordsPass};
ghost use Rattle.lc_board.specs.Limits.{capacity_limit, workers_limit};

use crate::answers::{Claim, CloseFault, Closed, PostFault};
use crate::shared::{Shared, Token};
use crate::words::Words;
use crate::words::close::{count_ended, drain, take_rows};
use crate::words::pass::WordsPass;
use std::alloc::{AllocError, Global};
use std::sync::Wait;

impl<J: Drop + Send, R: Drop + Send> Shared<J, R> for Words<J, R> {
    type Pass = WordsPass<J, R>;

    ghost capacity_of = { λ b. b.capacity };

    ghost workers_of = { λ b. b.workers };

    ghost is_root = { λ b root. b.table.shared.key.root.value ≡ root };

    ghost owns = { Owns };

    ghost promises = { words_promises };

    fn start(
        alloc: Global,
        capacity: u32,
        workers: u32,
        root: J,
    ) -> Result<(Words<J, R>, Vec<WordsPass<J, R>>), AllocError>
        requires capacity { (1 ≤ capacity) × (capacity ≤ capacity_limit) }
        requires workers { (1 ≤ workers) × (workers ≤ workers_limit) }
        ensures board { IfOk result
            (λ b. (b.0.capacity ≡ capacity) × (b.0.workers ≡ workers) × (b.0.table.shared.key.root.value ≡ root)) }
        ensures count { IfOk result (λ b. vec_len b.1 ≡ workers) }
        ensures passes { IfOk result
            (λ b. (w : ℕ) (p : WordsPass _ _) → slice_get b.1.items w ≡ Some p → Owns b.0 p × (told p ≡ new_pass w)) }
        ensures unseen { IfOk result
            (λ b. (w : ℕ) (p : WordsPass _ _) → slice_get b.1.items w ≡ Some p → (known p).seen ≡ []) }
    {
        let mut passes = Vec::with_capacity(alloc, workers as usize)?;
        let (board, first) = Words::open(alloc, capacity, workers, root)?;
        passes.push(first)?;
        for worker in 1..workers {
            let pass = board.another(&mut passes[0], worker);
            passes.push(pass)?;
        }
        Ok((board, passes))
    }

    /// Claims a directory, like `Words::claim`.
    fn claim<W: Wait>(&self, _rt: &W, pass: &mut WordsPass<J, R>) -> Claim<J>
        requires pass { Owns self.now pass.old }
        requires free { holding (told pass.old) ≡ None }
        ensures pass { Owns self.now pass.new }
        ensures mine { told pass.new ≡ after_claim (told pass.old) result }
        ensures rule { AnswersWordsClaim self.now.capacity (known pass.old) (known pass.new) pass.new.holding result }
        ensures steps { TakesSteps (λ k n. n ≤ 2) (known pass.old) (known pass.new) }
    {
        match Words::claim(self, pass) {
            Claim::Got(number, job) => Claim::Got(number, job),
            Claim::Later => Claim::Later,
            Claim::Over => Claim::Over,
            Claim::Memory => unreachable!(),
        }
    }

    /// Adds a child directory to the board, like `Words::post`.
    fn post<W: Wait>(
        &self,
        _rt: &W,
        pass: &mut WordsPass<J, R>,
        job: J,
    ) -> Result<u32, PostFault<J>>
        requires pass { Owns self.now pass.old }
        requires holds { holding (told pass.old) ≢ None }
        ensures pass { Owns self.now pass.new }
        ensures mine { told pass.new ≡ after_post (told pass.old) job result }
        ensures back { IfErr result (λ f. job_back f ≡ job) }
        ensures rule { AnswersWordsPost self.now pass.old job result pass.new }
        ensures steps { TakesSteps (λ k n. n ≤ most_in_post result k) (known pass.old) (known pass.new) }
    {
        match Words::post(self, pass, job) {
            Ok(number) => Ok(number),
            Err(PostFault::Full(job)) => {
                pass.full = true;
                Err(PostFault::Full(job))
            }
            _ => unreachable!(),
        }
    }

    /// Finishes the claimed directory, like `Words::give`.
    fn give<W: Wait>(&self, _rt: &W, pass: &mut WordsPass<J, R>, row: R)
        requires pass { Owns self.now pass.old }
        requires holds { holding (told pass.old) ≢ None }
        ensures pass { Owns self.now pass.new }
        ensures mine { told pass.new ≡ after_give (told pass.old) row }
        ensures rule { EndsClaim self.now pass.old (Returned row) pass.new }
    {
        Words::give(self, pass, row);
    }

    /// Finishes the claimed directory with an error, like `Words::fault`.
    fn fault<W: Wait>(&self, _rt: &W, pass: &mut WordsPass<J, R>, row: R)
        requires pass { Owns self.now pass.old }
        requires holds { holding (told pass.old) ≢ None }
        requires none { posted (told pass.old) ≡ 0 }
        ensures pass { Owns self.now pass.new }
        ensures mine { told pass.new ≡ after_fault (told pass.old) row }
        ensures rule { EndsClaim self.now pass.old (Faulted row) pass.new }
    {
        Words::fault(self, pass, row);
    }

    fn close(self, passes: Vec<WordsPass<J, R>>) -> Result<Closed<R>, CloseFault>
        requires all { vec_len passes ≡ self.workers }
        requires each { (w : ℕ) (p : _) → slice_get passes.items w ≡ Some p → Owns self p × ((told p).worker ≡ w) }
        ensures settled { IfOk result (λ c. (root : J) → self.table.shared.key.root.value ≡ root
            → Settled self.capacity self.workers root words_promises (map told passes.items) c.rows.items) }
        ensures fault { IfErr result (RefusesClose self.capacity self.workers words_promises (map told passes.items)) }
    {
        let alloc = self.alloc;
        let capacity = self.capacity;
        let closed = self.gather(passes);
        let count = match count_ended(&closed, capacity) {
            Ok(count) => count,
            Err(number) => {
                drain(closed, 0);
                return Err(CloseFault::Unfinished(number));
            }
        };
        match take_rows(alloc, closed, count) {
            Ok(rows) => Ok(Closed { rows }),
            Err(_) => Err(CloseFault::Memory),
        }
    }
}
