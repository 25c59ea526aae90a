//! A list of the directories that a worker has most recently added to a board of atomic words. The worker's next claims try these
//! directories first. The list is only a hint: the atomic word of each directory shows whether the directory still waits for a worker.
ghost use Rattle.std.specs.Prelude.{◌≡◌, ℕ, ◌<◌, ◌≤◌, ◌⊎◌, IfNone, IfSome};
ghost use Rattle.lc_board.specs.{Limits.capacity_limit, WordPass.IsListed};

/// A list of the directories that a worker has most recently added to the board: the numbers from `start` up to `end`, without `end`.
#[derive(Clone, Copy, Drop)]
pub struct Newest {
    start: u32,
    end: u32,
}

impl Newest {
    /// Makes an empty list.
    pub fn new() -> Newest
        ensures { (k : ℕ) → IsListed result k → ⊥ }
    {
        Newest { start: 0, end: 0 }
    }

    /// Adds the number of a directory that the worker has added to the board. The first number under a claim (`is_first`) replaces the
    /// list. So does a number that does not follow the list, since other workers used the numbers in between.
    pub fn note(&mut self, number: u32, is_first: bool)
        requires { number < capacity_limit }
        ensures adds { (k : ℕ) → IsListed self.new k → (k ≡ number) ⊎ IsListed self.old k }
        ensures listed { self.old.start ≤ self.old.end → IsListed self.new number }
    {
        if is_first || number != self.end {
            self.start = number;
        }
        self.end = number + 1;
    }

    /// Removes the highest number from the list and returns it.
    pub fn take(&mut self) -> Option<u32>
        ensures taken { IfSome result (IsListed self.old) }
        ensures none { IfNone result ((k : ℕ) → IsListed self.old k → ⊥) }
        ensures rest { (k : ℕ) → IsListed self.new k → IsListed self.old k }
    {
        if self.start >= self.end {
            return None;
        }
        self.end -= 1;
        Some(self.end)
    }

    /// Removes all numbers from the list. A worker does this after it failed to claim a directory of the list, since other workers have
    /// probably begun to claim the list's directories.
    pub fn clear(&mut self)
        ensures { (k : ℕ) → IsListed self.new k → ⊥ }
    {
        self.end = self.start;
    }
}
