//! The sums over the rows of a comparison.

ghost use Rattle.std.specs.{Prelude.{◌≡◌, IfOk}};
ghost use Rattle.lc_changes.specs.{ChangeSheets.{other_sums, total_sums}, Changes.{new_sums_of, old_sums_of}};

use crate::changed_row::ChangedRow;
use crate::kinds::ChangedSums;
use lc_rows::NamedSums;
use lc_walk::{Report, Sums};
use std::alloc::{AllocError, Global};

/// Adds up the old sums of rows, and the new sums.
fn both_sums_of(rows: &[ChangedRow<'_>]) -> Result<(Sums, Sums), AllocError>
    ensures { IfOk result (λ sums. (sums.0 ≡ old_sums_of rows.now) × (sums.1 ≡ new_sums_of rows.now)) }
{
    let mut old = Sums::none();
    let mut new = Sums::none();
    for row in rows {
        old = old.checked_add(row.old_sums).ok_or(AllocError)?;
        new = new.checked_add(row.new_row.sums).ok_or(AllocError)?;
    }
    Ok((old, new))
}

/// Makes a line of the sums over these rows, or no line if there are no rows. An error means that an allocation failed or that sums
/// overflow.
pub(crate) fn other_sums(
    alloc: Global,
    rows: &[ChangedRow<'_>],
) -> Result<Vec<ChangedSums>, AllocError>
    ensures { IfOk result (λ lines. lines.items ≡ other_sums rows.now) }
{
    let mut lines = Vec::new(alloc);
    if rows.is_empty() {
        return Ok(lines);
    }
    let (old, new) = both_sums_of(rows)?;
    lines.push(ChangedSums {
        new_sums: NamedSums {
            name: "others",
            sums: new,
        },
        old_sums: old,
    })?;
    Ok(lines)
}

/// Makes the line of the totals of two reports.
pub(crate) fn total_sums(
    alloc: Global,
    old: &Report,
    new: &Report,
) -> Result<Vec<ChangedSums>, AllocError>
    ensures { IfOk result (λ lines. lines.items ≡ total_sums old.now.totals new.now.totals) }
{
    let mut lines = Vec::new(alloc);
    lines.push(ChangedSums {
        new_sums: NamedSums {
            name: "total",
            sums: new.totals,
        },
        old_sums: old.totals,
    })?;
    Ok(lines)
}
