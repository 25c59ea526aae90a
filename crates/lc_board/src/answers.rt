//! What the calls on a board return. A board hands the directories of a tree to worker threads.
ghost use Rattle.std.specs.Prelude.{◌≡◌};
ghost use Rattle.lc_board.specs.Ending.{row_in};

/// What `claim` returns to a worker that asks the board for a directory.
#[derive(PartialEq, Eq, Debug, Drop)]
pub enum Claim<J> {
    /// The number of the directory that the worker has claimed, and the directory's job: what a visit of the directory needs.
    Got(u32, J),
    /// None of the directories that this worker knows to be on the board waits for a worker. Another worker may still add a directory to
    /// the board, so claim again later.
    Later,
    /// All directories on the board are finished, and no directory can be added any more: the work is done.
    Over,
    /// An allocation failed, and the board did not change.
    Memory,
}

/// Why `post` added no child directory to the board. Each variant returns the directory's job to the caller.
#[derive(PartialEq, Eq, Debug, Drop)]
pub enum PostFault<J> {
    /// The board has no unused number left for another directory.
    Full(J),
    /// An allocation failed. The board and the worker's pass did not change. A pass gives a worker access to the board.
    Memory(J),
}

/// Why a board was not closed. If several variants apply, the variant that is declared first is returned.
#[derive(Clone, Copy, PartialEq, Eq, Debug, Drop)]
pub enum CloseFault {
    /// Some directory is not finished: it still waits for a worker, or a worker has claimed it. The field is the least number of an
    /// unfinished directory.
    Unfinished(u32),
    /// The board and a worker's pass (the worker's access to the board) have each recorded the worker's events, and the two records differ.
    /// The field is the worker's index.
    Mismatch(u32),
    /// An allocation for the list of the directories' rows failed.
    Memory,
}

/// The row that a worker added to the board when it finished a directory: what the worker found there. `Faulted` has a row that reports an
/// error.
#[derive(PartialEq, Eq, Debug, Drop)]
pub enum Ended<R> {
    Returned(R),
    Faulted(R),
}

impl<R> Ended<R> {
    pub(crate) fn into_row(self) -> R
        ensures { result ≡ row_in self }
    {
        match self {
            Ended::Returned(row) => row,
            Ended::Faulted(row) => row,
        }
    }
}

/// The rows of a closed board, one for each directory on it. The index of a row is the directory's number.
#[derive(PartialEq, Eq, Debug, Drop)]
pub struct Closed<R> {
    pub rows: Vec<Ended<R>>,
}
