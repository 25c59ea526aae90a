//! Searches in `Plain`, the board for one thread: among its directories, and among the directories that its workers have claimed.
ghost use Rattle.std.specs.Prelude.{◌≡◌, ◌≢◌, ℕ, ◌<◌, ◌≤◌, false, true, Some, IfOk, IfSome, IfNone, length, map, slice_get};
ghost use Rattle.lc_board.specs.{PlainCalls.{IsPending, cell_of}, Limits.capacity_limit};

use crate::answers::Ended;
use crate::plain::cell::Cell;
use std::alloc::{AllocError, Global};

/// Returns whether some worker has claimed a directory and not finished it. `held` has the number of each worker's claimed directory.
pub fn is_any_held(held: &[Option<u32>]) -> bool
    ensures some { result ≡ true → (w i : ℕ) × (slice_get held.now w ≡ Some (Some i)) }
    ensures none { result ≡ false → (w i : ℕ) → slice_get held.now w ≢ Some (Some i) }
{
    for at in 0..held.len() {
        if held[at].is_some() {
            return true;
        }
    }
    false
}

/// Returns the least number of a directory that is not finished: it waits for a worker, or a worker has claimed it. The index of a cell is
/// the number of its directory.
pub fn first_pending<J, R>(cells: &[Cell<J, R>]) -> Option<u32>
    requires { length cells.now ≤ capacity_limit }
    ensures some { IfSome result (λ n. IsPending (slice_get cells.now n) × ((k : ℕ) → k < n → ¬ IsPending (slice_get cells.now k))) }
    ensures none { IfNone result ((k : ℕ) → ¬ IsPending (slice_get cells.now k)) }
{
    for at in 0..cells.len() {
        if cells[at].is_pending() {
            return Some(at as u32);
        }
    }
    None
}

/// Returns the row of each cell's directory. All these directories must be finished.
pub fn all_ended<J: Drop, R: Drop>(
    alloc: Global,
    cells: Vec<Cell<J, R>>,
) -> Result<Vec<Ended<R>>, AllocError>
    requires { (k : ℕ) → ¬ IsPending (slice_get cells.items k) }
    ensures { IfOk result (λ rows. map cell_of rows.items ≡ cells.items) }
{
    let mut rows = Vec::with_capacity(alloc, cells.len())?;
    for cell in cells {
        rows.push(cell.into_row())?;
    }
    Ok(rows)
}
