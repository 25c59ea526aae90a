//! The rows of two reports side by side.

ghost use Rattle.std.specs.{Prelude.{◌≡◌, IfOk, option_map}, Option.option_to_list};
ghost use Rattle.lc_changes.specs.Changes.{AreCompared};
ghost use Rattle.lc_rows.specs.{RowKeys.sums_of_shown, ShownRows.parts_of};

use crate::changed_row::ChangedRow;
use crate::merge::{Keyed, merged};
use lc_rows::{ShownRow, added_rows};
use lc_sheet::Columns;
use lc_walk::{Report, Sums};
use std::alloc::{AllocError, Global};
use std::cmp::Ordering;

/// Returns the sums of a row, or zeros if a report lacks the row.
#[tactic(auto, using(crate::proofs::RowsCompared::sums_of_one))]
fn sums_of(row: Option<&ShownRow<'_>>) -> Sums
    ensures { result ≡ sums_of_shown (option_to_list (option_map (λ r. r.now) row.entry)) }
{
    match row {
        None => Sums::none(),
        Some(row) => row.sums,
    }
}

impl<'a> Keyed for ShownRow<'a> {
    ghost use Rattle.lc_changes.specs.Changes.{IsRowOf, changed_key};
    ghost use Rattle.lc_rows.proofs.SameKeys.{exact_row_keys, row_key_cmp_total};
    ghost use Rattle.lc_rows.specs.RowKeys.{RowKey, row_key, row_key_cmp};

    type Line = ChangedRow<'a>;

    ghost Key = { RowKey };

    ghost key = { row_key };

    ghost cmp = { row_key_cmp };

    ghost line_key = { changed_key };

    ghost is_of = { IsRowOf };

    fn compare(&self, other: &ShownRow<'a>) -> Ordering {
        self.key.compare(&other.key)
    }

    fn line(old: Option<&ShownRow<'a>>, new: Option<&ShownRow<'a>>) -> Option<ChangedRow<'a>> {
        let row = new.or(old)?;
        let new_row = ShownRow {
            key: row.key.copied(),
            sums: sums_of(new),
        };
        Some(ChangedRow {
            new_row,
            old_sums: sums_of(old),
        })
    }

    ghost total = { row_key_cmp_total };

    ghost exact = { exact_row_keys };
}

/// Adds up the counts of two reports by these columns, and pairs the sums of both reports for each key, in the order of keys.
///
/// Rows by directories or attributes are sums over the files, which the reports must have. An error means that an allocation failed or that
/// sums overflow. The sums of a walk's rows never overflow.
pub(crate) fn compared_rows<'a>(
    alloc: Global,
    old: &'a Report,
    new: &'a Report,
    by: Columns,
) -> Result<Vec<ChangedRow<'a>>, AllocError>
    ensures { IfOk result (λ rows. AreCompared (parts_of by old.entry.now.rows.items old.entry.now.files.items)
        (parts_of by new.entry.now.rows.items new.entry.now.files.items) rows.items) }
{
    let olds = added_rows(alloc, &old.rows, &old.files, by)?;
    let news = added_rows(alloc, &new.rows, &new.files, by)?;
    let rows = merged(alloc, &olds, &news)?;
    Ok(rows)
}
