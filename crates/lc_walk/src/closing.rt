//! The end of a walk: closing the board that the workers shared, and making the report from the board's rows, one row for each directory.
ghost use Rattle.std.specs.Prelude.{◌≡◌, [], map};
ghost use Rattle.lc_walk.specs.Passes.{HaveWorked, IsClosable, asked};
ghost use Rattle.lc_level.specs.Filters.{FiltersModel};
ghost use Rattle.lc_level.specs.TreeAnswers.{MayAnswer};
ghost use Rattle.lc_walk.specs.BoardAnswers.{WalkAnswers};
ghost use Rattle.lc_walk.specs.CloseFaults.{fault_of_close};
ghost use Rattle.lc_level.specs.Job.{JobModel};

use crate::options::ReportLists;
use crate::report::{Report, assemble};
use crate::row::Row;
use crate::tally::Tally;
use crate::walk_fault::WalkFault;
use lc_board::{CloseFault, Shared};
use lc_level::Job;
use lc_tree::Tree;
use std::alloc::Global;

impl From<CloseFault> for WalkFault {
    ghost use Rattle.std.specs.Prelude.{◌≡◌};
    ghost use Rattle.lc_walk.specs.CloseFaults.{fault_of_close};

    ghost from_gives = { λ fault result. result ≡ fault_of_close fault };

    fn from(fault: CloseFault) -> WalkFault {
        match fault {
            CloseFault::Unfinished(number) => WalkFault::Torn(number),
            CloseFault::Mismatch(worker) => WalkFault::Mismatch(worker),
            CloseFault::Memory => WalkFault::Memory,
        }
    }
}

/// Closes the board of a walk, and makes the report from the rows that the workers added, one row for each directory. The contract
/// describes the result if all workers have stopped because no directory was left.
pub fn finish<B: Shared<Job, Row>, T: Tree>(
    alloc: Global,
    board: B,
    passes: Vec<B::Pass>,
    lists: ReportLists,
    tally: Tally,
) -> Result<Report, WalkFault>
    requires { IsClosable (B.capacity_of board) (B.workers_of board) (B.is_root board) (B.owns board) B.Pass.view passes.items }
    ensures { (tree : T) (filters : FiltersModel) →
        HaveWorked (asked lists filters) (MayAnswer (T.lists tree) (T.gives tree)) (map (λ p. B.Pass.view p) passes.items) tally →
        (root : JobModel) → B.is_root board root → root.path ≡ [] →
        WalkAnswers (MayAnswer (T.lists tree) (T.gives tree)) (asked lists filters)
        (B.capacity_of board) (B.workers_of board) root B.promises result }
{
    match board.close(passes) {
        Ok(closed) => assemble(alloc, closed, lists, tally),
        Err(fault) => Err(WalkFault::from(fault)),
    }
}
