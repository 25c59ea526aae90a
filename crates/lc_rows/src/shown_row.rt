//! A row of a table.

ghost use Rattle.std.specs.Prelude.{◌≡◌, IfErr, IfOk};
ghost use Rattle.lc_rows.specs.RowKeys.{row_key, row_with};
ghost use Rattle.lc_walk.specs.Sums.{IsInRange, plus};

use crate::parts::Part;
use crate::row_key::RowKeyRef;
use lc_walk::Sums;
use std::alloc::AllocError;
use std::marker::Model;

/// A row of a table: the sums over the files that have the same values in the columns that rows are grouped by.
#[derive(Drop)]
pub struct ShownRow<'a> {
    /// What the files have in common.
    pub key: RowKeyRef<'a>,
    /// The sums over the files.
    pub sums: Sums,
}

impl<'a> Model for ShownRow<'a> {
    ghost use Rattle.lc_rows.specs.RowKeys.{ShownRowModel, row_with};

    ghost Value = { ShownRowModel };

    ghost view = { λ r. row_with r.key r.sums };
}

impl<'a> ShownRow<'a> {
    /// Makes a row that adds up one part alone.
    pub(crate) fn of(part: &Part<'a, '_>) -> ShownRow<'a>
        ensures { result ≡ part.now }
    {
        ShownRow {
            key: part.key.copied(),
            sums: part.sums(),
        }
    }

    /// Returns the row with `more` added to its sums. An error means that the sums overflow.
    pub(crate) fn with(self, more: Sums) -> Result<ShownRow<'a>, AllocError>
        ensures row { IfOk result (λ row. row ≡ row_with (row_key self.entry) (plus self.entry.sums more)) }
        ensures overflow { IfErr result (λ _. IsInRange (plus self.entry.sums more) → ⊥) }
    {
        let sums = self.sums.checked_add(more).ok_or(AllocError)?;
        Ok(ShownRow {
            key: self.key,
            sums,
        })
    }
}
