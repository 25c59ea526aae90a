//! Making the report of a walk from the rows that the workers added to the board, one row for each directory.
ghost use Rattle.std.specs.Prelude.{◌≡◌, ℕ, ◌<◌, ◌≤◌, ◌^◌, true, false, slice_get, Some, vec_len};
ghost use Rattle.lc_walk.specs.Rows.{row_of};
ghost use Rattle.lc_walk.specs.Assembled.{IsBrokenBy, SomeBroken, Assembles};
ghost use Rattle.lc_walk.specs.Links.{fault_of_tree};
ghost use Rattle.lc_board.specs.declared.answers.Ended.{Ended};
ghost use Rattle.lc_walk.specs.declared.row.Row.{Row};

use crate::broken_cause::BrokenCause;
use crate::options::ReportLists;
use crate::report::Report;
use crate::report::row_lines::{findings_of, row_of};
use crate::report::tree_check::{TreeFault, check_tree};
use crate::row::Row;
use crate::tally::Tally;
use crate::walk_fault::WalkFault;
use lc_board::{Closed, Ended};
use std::alloc::Global;

/// Returns whether the row is `Row::Broken` with this cause.
fn is_broken_by(row: &Row, cause: BrokenCause) -> bool
    ensures broken { result ≡ true → IsBrokenBy cause row.now }
    ensures other { result ≡ false → IsBrokenBy cause row.now → ⊥ }
{
    match row {
        Row::Listed(_) | Row::Faulted(_) => false,
        Row::Broken(row) => row.cause == cause,
    }
}

/// Returns whether some row of a board is `Row::Broken` with this cause.
fn some_broken(rows: &[Ended<Row>], cause: BrokenCause) -> bool
    ensures some { result ≡ true → SomeBroken cause rows.now }
    ensures none { result ≡ false → (i : ℕ) (e : Ended Row) → slice_get rows.now i ≡ Some e → IsBrokenBy cause (row_of e) → ⊥ }
{
    for at in 0..rows.len() {
        if is_broken_by(row_of(&rows[at]), cause) {
            return true;
        }
    }
    false
}

fn fault_of_tree(fault: TreeFault) -> WalkFault
    ensures { result ≡ fault_of_tree fault }
{
    match fault {
        TreeFault::Memory => WalkFault::Memory,
        TreeFault::Torn(number) => WalkFault::Torn(number),
    }
}

/// Makes the report of a walk from the closed board, which has a row for each directory, and from the tally of all counted files. On an
/// error, the rows and the tally are dropped.
pub fn assemble(
    alloc: Global,
    closed: Closed<Row>,
    lists: ReportLists,
    tally: Tally,
) -> Result<Report, WalkFault>
    requires { vec_len closed.rows ≤ 2 ^ 32 }
    ensures { Assembles lists tally closed.rows.items result }
{
    let rows = closed.rows.as_slice();
    if some_broken(rows, BrokenCause::Memory) {
        return Err(WalkFault::Memory);
    }
    if some_broken(rows, BrokenCause::TooManyDirs) {
        return Err(WalkFault::TooManyDirs);
    }
    if some_broken(rows, BrokenCause::TooDeep) {
        return Err(WalkFault::TooDeep);
    }
    match check_tree(alloc, rows) {
        Ok(()) => {}
        Err(fault) => return Err(fault_of_tree(fault)),
    }
    let Ok(findings) = findings_of(alloc, rows) else {
        return Err(WalkFault::Memory);
    };
    Ok(Report::new(tally, lists, findings))
}
