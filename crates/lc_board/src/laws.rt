//! Laws about the legal histories of a board, which hands directories to worker threads. A history is the list of what all workers did:
//! their events. It is legal if the rules of the board (`IsAllowed`) allow each event after the events before it. A law has no code: its
//! contract is a theorem, which the prover checks.
ghost use Rattle.lc_board.specs.Laws.{NumbersOnce, PartSaysWhole, PartTellsClaim, PostedNothing, OverStays, EndedHasRow, EndedStays};
ghost use Rattle.lc_board.specs.{Laws.{PostedOnce, StaysLegal, FewNumbers, FewEnds, RowsAreEnds, SumsOfRows}, Scripts.ScriptsAreLegal};
ghost use Rattle.lc_board.specs.Limits.{capacity_limit, workers_limit};
ghost use Rattle.std.specs.Prelude.{◌≡◌};

use crate::limits::{MAX_CAPACITY, MAX_WORKERS};

/// The law that a board hands out no directory's number twice. In a legal history, the number of a directory is added to the board at most
/// once, claimed at most once, and finished at most once.
#[tactic(auto, using(crate::proofs::NumbersOnce::numbers_once))]
pub fn numbers_once<J, R>()
    ensures { NumbersOnce J R }
{}

/// The law that a worker's own events agree with the whole legal history about each directory that this worker claimed: about the
/// directory's job, the child directories that were added under it, and its row.
#[tactic(auto, using(crate::proofs::PartsOfWhole::part_says_whole))]
pub fn part_says_whole<J, R>()
    ensures { PartSaysWhole J R }
{}

/// The law that a worker's own events show which directory the worker has claimed and not finished. They also show its job, and the child
/// directories that the worker has added to the board under this claim.
#[tactic(auto, using(crate::proofs::HeldClaims::part_tells_claim, crate::proofs::HeldClaims::posted_nothing))]
pub fn part_tells_claim<J, R>()
    ensures claim { PartTellsClaim J R }
    ensures nothing { PostedNothing J R }
{}

/// The law that the work never starts again. If a worker's last event in a legal history is `Over`, all directories on the board are
/// finished at the end of this history.
#[tactic(auto, using(crate::proofs::OverHistories::over_stays))]
pub fn over_stays<J, R>()
    ensures { OverStays J R }
{}

/// The law that in a legal history a directory has a row exactly if a worker has finished the directory.
#[tactic(auto, using(crate::proofs::NumbersOnce::ended_has_row))]
pub fn ended_has_row<J, R>()
    ensures { EndedHasRow J R }
{}

/// The law that after a worker has finished a directory, the directory's job, row and child directories on the board never change.
#[tactic(auto, using(crate::proofs::EndedNumbers::ended_stays))]
pub fn ended_stays<J, R>()
    ensures { EndedStays J R }
{}

/// The law that in a legal history each directory on the board was added by exactly one `Post` event, except the root, number 0. The root
/// is on the board from the start, and no event adds it.
#[tactic(auto, using(crate::proofs::RowsOfWorkers::posted_once))]
pub fn posted_once<J, R>()
    ensures { PostedOnce J R }
{}

/// The law that a history of events that is legal on a board is also legal on a board of larger capacity.
#[tactic(auto, using(crate::proofs::RowsOfWorkers::stays_legal))]
pub fn stays_legal<J, R>()
    ensures { StaysLegal J R }
{}

/// The law that a legal history has at most as many directories, and at most as many rows, as the capacity of the board. The law requires a
/// capacity of at least 1.
#[tactic(auto, using(crate::proofs::RowsOfWorkers::few_numbers, crate::proofs::RowsOfWorkers::few_ends))]
pub fn few_numbers<J, R>()
    ensures numbers { FewNumbers J R }
    ensures ends { FewEnds J R }
{}

/// The law that a closed board has exactly the rows that its workers added. The law requires that the row of directory number `n` is at the
/// index `n`. For each function from rows to numbers, its sum over all rows is the total of its sums over the rows of each worker.
#[tactic(auto, using(crate::proofs::RowsOfWorkers::rows_are_ends, crate::proofs::RowsOfWorkers::sums_of_rows))]
pub fn rows_are_ends<J, R>()
    ensures rows { RowsAreEnds J R }
    ensures sums { SumsOfRows J R }
{}

/// The law that `MAX_CAPACITY` and `MAX_WORKERS` equal `capacity_limit` and `workers_limit`, the limits that contracts cite.
pub fn limits_are()
    ensures capacity { MAX_CAPACITY ≡ capacity_limit }
    ensures workers { MAX_WORKERS ≡ workers_limit }
{}

/// The law that tests the definitions about histories of a board, such as `IsLegal`: they give the expected results for a few short
/// histories.
#[tactic(auto, using(crate::proofs::ComputedScripts::scripts_are_legal))]
pub fn scripts_are_legal()
    ensures { ScriptsAreLegal }
{}
