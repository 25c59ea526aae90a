//! Adding up the parts of rows, such as files, into one row for each key.

ghost use Rattle.std.specs.Prelude.{◌≡◌, IfOk};
ghost use Rattle.std.specs.List.Sorted.{IsSortedByKey};
ghost use Rattle.lc_rows.specs.AddingUp.{IsAdded};
ghost use Rattle.lc_rows.specs.RowKeys.{row_key, row_key_cmp};
ghost use Rattle.lc_rows.specs.ShownRows.{AreAddedUp};

use crate::parts::Part;
use crate::shown_row::ShownRow;
use std::alloc::{AllocError, Global};

/// Returns the last row with the part added, if both have the same key. Otherwise pushes the last row, and returns a row of the part alone.
fn add_part<'a>(
    rows: &mut Vec<ShownRow<'a>>,
    last: ShownRow<'a>,
    part: &Part<'a, '_>,
) -> Result<ShownRow<'a>, AllocError>
    ensures { IfOk result (IsAdded rows.old.items last.entry part.now rows.new.items) }
{
    if last.key.compare(&part.key).is_eq() {
        return last.with(part.sums());
    }
    rows.push(last)?;
    Ok(ShownRow::of(part))
}

/// Adds up parts that are in the order of their keys, into one row for each key.
fn added_in_order<'a>(
    alloc: Global,
    parts: &[Part<'a, '_>],
) -> Result<Vec<ShownRow<'a>>, AllocError>
    requires { IsSortedByKey row_key row_key_cmp parts.now }
    ensures { IfOk result (λ rows. AreAddedUp parts.now rows.items) }
{
    let mut rows = Vec::new(alloc);
    let Some((first, others)) = parts.split_first() else {
        return Ok(rows);
    };
    let mut last = ShownRow::of(first);
    let mut rest = others;
    'parts: while let Some((part, others)) = rest.split_first() {
        last = add_part(&mut rows, last, part)?;
        rest = others;
    }
    rows.push(last)?;
    Ok(rows)
}

/// Makes a row from each part.
pub(crate) fn rows_of<'a>(
    alloc: Global,
    parts: &[Part<'a, '_>],
) -> Result<Vec<ShownRow<'a>>, AllocError>
    ensures { IfOk result (λ rows. rows.items ≡ parts.now) }
{
    let mut rows = Vec::with_capacity(alloc, parts.len())?;
    for part in parts {
        rows.push(ShownRow::of(part))?;
    }
    Ok(rows)
}

/// Adds up parts into one row for each key, in the order of keys. An error means that an allocation failed or that sums overflow.
pub(crate) fn added_up<'a>(
    alloc: Global,
    mut parts: Vec<Part<'a, '_>>,
) -> Result<Vec<ShownRow<'a>>, AllocError>
    ensures { IfOk result (λ rows. AreAddedUp parts.entry.items rows.items) }
{
    parts.sort_unstable_by(|a, b| a.key.compare(&b.key));
    let rows = added_in_order(alloc, &parts)?;
    Ok(rows)
}
