//! The rows of a tally, found by their keys.
ghost use Rattle.std.specs.Prelude.{◌≡◌, ◌<◌, [], ◌∷◌, ◌++◌, length, IfOk, IfSome, IsSome, IsOk, IsTrue, OnOk, OnErr};
ghost use Rattle.std.specs.List.{HoldsAt};
ghost use Rattle.std.specs.declared.cmp.Ordering.TheVariants.{Equal};
ghost use Rattle.lc_walk.specs.Key.{key_cmp};
ghost use Rattle.lc_walk.specs.Sums.{plus, IsInRange};
ghost use Rattle.lc_walk.specs.TallyRows.{AddsUp, Gains, HasSumsOf, IsAbsorbed, TallyRowModel, has_row, row_with, sums_of_rows};

use crate::tally::key::KeyRef;
use crate::tally::row_hints::{RowHints, slot_of};
use crate::tally::sums::Sums;
use crate::tally::tally_row::TallyRow;
use std::alloc::{AllocError, Global};
use std::marker::Model;

// Up to this number of rows, a sort is not worth its cost.
const FEW: usize = 64;

/// The rows of a tally, which are found by their keys. Adding a file costs on average as much as a sort costs for one row.
///
/// A search tries the row of the key's hint first, and then the sorted rows in front. If none of them has the key, a row is pushed, so
/// several of the unsorted rows may have one key. All rows are sorted as soon as there are more than 64 rows, of which more than half are
/// unsorted. The rows of each key then become one row.
#[derive(Drop)]
pub(crate) struct KeyedRows {
    rows: Vec<TallyRow>,
    // The number of rows in front that are in the order of their keys, each key once.
    sorted: usize,
    hints: RowHints,
}

impl Model for KeyedRows {
    ghost use Rattle.std.specs.Prelude.{◌≤◌, List, length};
    ghost use Rattle.lc_walk.specs.TallyRows.{TallyRowModel};

    ghost Value = { List TallyRowModel };

    ghost view = { λ a. a.rows.items };

    ghost invariant = { λ a. a.sorted ≤ length a.rows.items };
}

impl KeyedRows {
    pub(crate) fn new(alloc: Global) -> KeyedRows
        ensures { result ≡ [] }
    {
        KeyedRows {
            rows: Vec::new(alloc),
            sorted: 0,
            hints: RowHints::empty(),
        }
    }

    /// Adds the sums of some files that have one key. If a new row can't be allocated, it searches all rows for the key, and fails only if
    /// none has it.
    pub(crate) fn gain(&mut self, key: &KeyRef<'_>, more: Sums) -> Result<(), AllocError>
        requires room { IsInRange (plus (sums_of_rows self.old) more) }
        ensures gains { OnOk result (Gains self.old self.new key.now more) }
        ensures known { IsTrue (has_row key.now self.old) → IsOk result }
        ensures unchanged { OnErr result (self.new ≡ self.old) }
    {
        let slot = slot_of(key);
        if let Some(at) = self.find(slot, key) {
            self.hints.note(slot, at);
            self.absorb(at, key, more);
            return Ok(());
        }
        match self.push(slot, key, more) {
            Ok(()) => {
                self.add_up_when_due();
                Ok(())
            }
            Err(_) => self.gain_known(key, more),
        }
    }

    /// Appends the rows of another tally. Their extensions are moved, not copied.
    pub(crate) fn append(&mut self, other: KeyedRows) -> Result<(), AllocError>
        requires { IsInRange (sums_of_rows (self.old ++ other)) }
        ensures { OnOk result (HasSumsOf (self.old ++ other) self.new) }
    {
        let KeyedRows { mut rows, .. } = other;
        self.rows.append(&mut rows)?;
        self.add_up_when_due();
        Ok(())
    }

    /// Returns the rows in the order of their keys, each key once.
    pub(crate) fn into_sorted(self) -> Vec<TallyRow>
        requires { IsInRange (sums_of_rows self) }
        ensures { AddsUp self result.items }
    {
        let KeyedRows { mut rows, .. } = self;
        add_up(&mut rows);
        rows
    }

    /// Returns copies of the rows in the order of their keys, each key once.
    pub(crate) fn to_sorted(&self) -> Result<Vec<TallyRow>, AllocError>
        requires { IsInRange (sums_of_rows self.now) }
        ensures { IfOk result (λ rows. AddsUp self.now rows.items) }
    {
        let mut rows = copies_of(&self.rows)?;
        add_up(&mut rows);
        Ok(rows)
    }

    // Finds the key in the row of its hint, or in the sorted rows.
    fn find(&self, slot: usize, key: &KeyRef<'_>) -> Option<usize>
        requires { slot < 512 }
        ensures within { IfSome result (λ at. at < length self.now) }
        ensures found { IfSome result (HoldsAt (λ r. key_cmp r.key key.now ≡ Equal) self.now) }
    {
        let hint = self.hints.row(slot);
        if hint < self.rows.len() {
            let row = &self.rows[hint];
            if row.compare(key).is_eq() {
                return Some(hint);
            }
        }
        self.rows[..self.sorted]
            .binary_search_by(|row| row.compare(key))
            .ok()
    }

    // Finds the key in all rows.
    fn position(&self, key: &KeyRef<'_>) -> Option<usize>
        ensures within { IfSome result (λ at. at < length self.now) }
        ensures found { IfSome result (HoldsAt (λ r. key_cmp r.key key.now ≡ Equal) self.now) }
        ensures known { IsTrue (has_row key.now self.now) → IsSome result }
    {
        self.rows.iter().position(|row| row.compare(key).is_eq())
    }

    // Adds to the sums of a row that has the key.
    fn absorb(&mut self, at: usize, key: &KeyRef<'_>, more: Sums)
        requires within { at < length self.old }
        requires found { HoldsAt (λ r. key_cmp r.key key.now ≡ Equal) self.old at }
        requires room { IsInRange (plus (sums_of_rows self.old) more) }
        ensures { Gains self.old self.new key.now more }
    {
        let row = &mut self.rows[at];
        row.absorb(more);
    }

    // Adds some files of a key that has a row. It allocates nothing.
    fn gain_known(&mut self, key: &KeyRef<'_>, more: Sums) -> Result<(), AllocError>
        requires room { IsInRange (plus (sums_of_rows self.old) more) }
        ensures gains { OnOk result (Gains self.old self.new key.now more) }
        ensures known { IsTrue (has_row key.now self.old) → IsOk result }
        ensures unchanged { OnErr result (self.new ≡ self.old) }
    {
        match self.position(key) {
            Some(at) => {
                self.absorb(at, key, more);
                Ok(())
            }
            None => Err(AllocError),
        }
    }

    fn push(&mut self, slot: usize, key: &KeyRef<'_>, sums: Sums) -> Result<(), AllocError>
        requires { slot < 512 }
        ensures pushed { OnOk result (self.new ≡ self.old ++ row_with key.now sums ∷ []) }
        ensures unchanged { OnErr result (self.new ≡ self.old) }
    {
        let row = TallyRow::new(*self.rows.allocator(), key, sums)?;
        self.rows.push(row)?;
        self.hints.note(slot, self.rows.len() - 1);
        Ok(())
    }

    fn add_up_when_due(&mut self)
        requires { IsInRange (sums_of_rows self.old) }
        ensures { HasSumsOf self.old self.new }
    {
        if self.rows.len() > FEW && self.rows.len() / 2 > self.sorted {
            add_up(&mut self.rows);
            self.sorted = self.rows.len();
        }
    }
}

fn copies_of(rows: &Vec<TallyRow>) -> Result<Vec<TallyRow>, AllocError>
    ensures { IfOk result (λ copies. copies.items ≡ rows.now.items) }
{
    let alloc = *rows.allocator();
    let mut copies = Vec::with_capacity(alloc, rows.len())?;
    for row in rows {
        copies.push(row.copy(alloc)?)?;
    }
    Ok(copies)
}

// Sorts the rows, and joins the rows of each key into one.
pub(crate) fn add_up(rows: &mut Vec<TallyRow>)
    requires { IsInRange (sums_of_rows rows.old.items) }
    ensures { AddsUp rows.old.items rows.new.items }
{
    rows.sort_unstable_by(|a, b| a.compare(&b.key()));
    let absorbed = |row: &mut TallyRow, last: &mut TallyRow| -> bool
        ensures { IsAbsorbed row.entry.now last.entry.now result row.exit.now last.exit.now }
    {
        let same = row.compare(&last.key()).is_eq();
        if same {
            last.absorb(row.sums());
        }
        same
    };
    rows.dedup_by(absorbed);
}
