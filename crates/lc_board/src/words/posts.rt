//! How a worker adds a child directory to a board of atomic words. The worker tries one number after another, until it finds an unused
//! number. The worker begins at the front, a mark in the pass that gives it access to the board: all numbers below the front are used.
ghost use Rattle.std.specs.Prelude.{◌≡◌, ◌+◌, ◌<◌, ◌≤◌, MatchBool, IsSome};
ghost use Rattle.lc_board.specs.WordsBoard.{AnswersWordsPost, IsPassOf, IsSamePass, TriesPost, known};
ghost use Rattle.lc_board.specs.{WordBounds.{PostSteps, TakesSteps, most_in_post}, WordSteps.{ExtendsFairly, TakesStep}};

use crate::answers::PostFault;
use crate::words::Words;
use crate::words::coding::Word;
use crate::words::pass::WordsPass;
use crate::words::rule::MoveFront;
use crate::words::view::Slot;

impl<J, R> Words<J, R> {
    /// Reads the word of the number at the pass's front, where the search for an unused number begins. If that number is used, moves the
    /// front to the next number and returns true.
    fn move_front(&self, pass: &mut WordsPass<J, R>) -> bool
        requires board { IsPassOf self.now pass.old }
        requires holds { IsSome pass.old.holding }
        requires near { pass.old.front < self.now.capacity }
        ensures board { IsSamePass pass.old pass.new × (pass.new.holding ≡ pass.old.holding) × (pass.new.posted ≡ pass.old.posted) }
        ensures front { MatchBool result (pass.new.front ≡ pass.old.front + 1) (pass.new.front ≡ pass.old.front) }
        ensures rule { ExtendsFairly self.now.capacity (known pass.old) (known pass.new) }
        ensures steps { TakesStep pass.old.front (known pass.old) (known pass.new) }
    {
        let number = pass.front;
        let shared = &self.table.shared;
        let found = Word::of(shared.load::<MoveFront>(&mut pass.seat, number as usize));
        if found.is_absent() {
            return false;
        }
        pass.front = number + 1;
        true
    }

    /// Reserves (draws) the number at the pass's front, and adds a directory with this number and this job to the board. If another worker
    /// reserves the number first, returns the job as the error.
    fn draw_and_open(&self, pass: &mut WordsPass<J, R>, job: J) -> Result<u32, J>
        requires board { IsPassOf self.now pass.old }
        requires holds { IsSome pass.old.holding }
        requires near { pass.old.front < self.now.capacity }
        ensures board { IsSamePass pass.old pass.new × (pass.new.holding ≡ pass.old.holding) × (pass.new.front ≡ pass.old.front + 1) }
        ensures rule { TriesPost self.now pass.old job result pass.new }
        ensures steps { PostSteps 1 pass.old.front result (known pass.old) (known pass.new) }
    {
        let number = pass.front;
        let is_drawn = self.draw(&mut pass.seat, number, pass.worker);
        pass.front = number + 1;
        if !is_drawn {
            return Err(job);
        }
        self.fill(&mut pass.seat, number, Slot::Job(job));
        self.open_drawn(&mut pass.seat, number);
        pass.newest.note(number, pass.posted == 0);
        pass.posted += 1;
        Ok(number)
    }

    /// Tries to add a directory with this job to the board, with the number at the pass's front. If that number is used, returns the job as
    /// the error. The number's word is read first, because even a failed exchange takes the word's cache line from the other cores.
    fn try_post(&self, pass: &mut WordsPass<J, R>, job: J) -> Result<u32, J>
        requires board { IsPassOf self.now pass.old }
        requires holds { IsSome pass.old.holding }
        requires near { pass.old.front < self.now.capacity }
        ensures board { IsSamePass pass.old pass.new × (pass.new.holding ≡ pass.old.holding) × (pass.new.front ≡ pass.old.front + 1) }
        ensures rule { TriesPost self.now pass.old job result pass.new }
        ensures steps { PostSteps 2 pass.old.front result (known pass.old) (known pass.new) }
    {
        if self.move_front(pass) {
            return Err(job);
        }
        match self.draw_and_open(pass, job) {
            Ok(number) => Ok(number),
            Err(back) => Err(back),
        }
    }

    /// Adds a child directory with this job to the board, and returns the directory's number. Searches for an unused number from the pass's
    /// front upward, since all numbers below the front are used. If all numbers are used, the error is `PostFault::Full` with the job.
    /// Takes at most two steps on each word, and one more on the word of the returned number. Waits for no thread, allocates nothing and
    /// never returns `PostFault::Memory`.
    pub fn post(&self, pass: &mut WordsPass<J, R>, mut job: J) -> Result<u32, PostFault<J>>
        requires board { IsPassOf self.now pass.old }
        requires holds { IsSome pass.old.holding }
        ensures board { IsSamePass pass.old pass.new × (pass.new.holding ≡ pass.old.holding) }
        ensures rule { AnswersWordsPost self.now pass.old job result pass.new }
        ensures steps { TakesSteps (λ k n. n ≤ most_in_post result k) (known pass.old) (known pass.new) }
    {
        while pass.front < self.capacity {
            match self.try_post(pass, job) {
                Ok(number) => return Ok(number),
                Err(back) => job = back,
            }
        }
        Err(PostFault::Full(job))
    }
}
