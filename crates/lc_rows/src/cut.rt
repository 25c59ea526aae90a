//! Cutting a table: its first rows or files, and the sums over the other rows.

ghost use Rattle.std.specs.Prelude.{◌≡◌, IfErr, IfOk};
ghost use Rattle.lc_walk.specs.Sums.{IsInRange};
ghost use Rattle.lc_rows.specs.RowKeys.{sums_of_shown};
ghost use Rattle.lc_rows.specs.Views.{first_of, rest_of, sums_of_some};

use crate::shown_row::ShownRow;
use lc_walk::Sums;
use std::alloc::AllocError;

/// Splits items after the first `top` items. If `top` is `None`, all items are in the first part.
pub fn split_at_top<T>(top: Option<u32>, items: &[T]) -> (&[T], &[T])
    ensures first { result.0.now ≡ first_of top items.now }
    ensures rest { result.1.now ≡ rest_of top items.now }
{
    match top {
        None => (items, &[]),
        Some(most) => items.split_at(items.len().min(most as usize)),
    }
}

pub(crate) fn sums_of_some(rows: &[ShownRow<'_>]) -> Result<Option<Sums>, AllocError>
    ensures sums { IfOk result (λ sums. sums ≡ sums_of_some rows.now) }
    ensures overflow { IfErr result (λ _. IsInRange (sums_of_shown rows.now) → ⊥) }
{
    if rows.is_empty() {
        return Ok(None);
    }
    let mut sums = Sums::none();
    for row in rows {
        sums = sums.checked_add(row.sums).ok_or(AllocError)?;
    }
    Ok(Some(sums))
}
