//! The sums over rows of several tallies.
ghost use Rattle.std.specs.Prelude.{◌≡◌, MatchOption};
ghost use Rattle.lc_walk.specs.Sums.{IsInRange};
ghost use Rattle.lc_walk.specs.TallyRows.{AddsUp, sums_of_rows};

use crate::tally::keyed_rows::add_up;
use crate::tally::sums::Sums;
use crate::tally::tally_row::TallyRow;

/// Returns the sums over all rows, or `None` if a sum does not fit its type.
pub fn sums_of_rows(rows: &[TallyRow]) -> Option<Sums>
    ensures { MatchOption result (IsInRange (sums_of_rows rows.now) → ⊥) (λ sums. sums ≡ sums_of_rows rows.now) }
{
    let mut sums = Sums::none();
    let mut rest = rows;
    'rows: while let Some((row, others)) = rest.split_first() {
        sums = sums.checked_add(row.sums())?;
        rest = others;
    }
    Some(sums)
}

/// Joins the rows of each key into one row, and sorts the rows by their keys. Returns `None` if a sum over all rows does not fit its type.
/// It allocates nothing.
///
/// ```
/// let rows = added_up(rows)?;
/// ```
pub fn added_up(mut rows: Vec<TallyRow>) -> Option<Vec<TallyRow>>
    ensures { MatchOption result (IsInRange (sums_of_rows rows.items) → ⊥) (λ added. AddsUp rows.items added.items) }
{
    sums_of_rows(&rows)?;
    add_up(&mut rows);
    Some(rows)
}
