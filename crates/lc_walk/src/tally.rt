//! The tally of counted files: the sums over the files of each key, and over all files. A key is an extension, a state of the attribute
//! `text` and a class of line ends.
//!
//! - `classes`: the sums over text files, and over binary files
//! - `extensions`: the extension of a file's name
//! - `key`, `sums`, `tally_row`: a row of a tally, which has a key and the sums over the files with this key
//! - `keyed_rows`: the rows of a tally, found by their keys
//! - `row_hints`: the last known place of a key's row
//! - `row_sums`: the sums over rows of several tallies
ghost use Rattle.std.specs.Prelude.{◌≡◌, ◌+◌, ◌<◌, ◌≤◌, ◌^◌, List, [], ◌∷◌, ◌++◌, nat_le, option_map, IfOk, IsOk, IsTrue, OnOk, OnErr};
ghost use Rattle.lc_walk.specs.TallyRows.{AddsUp, has_row, sums_of_rows};
ghost use Rattle.lc_walk.specs.Sums.{IsInRange, IsModest};
ghost use Rattle.lc_walk.specs.Tally.{StandsFor, CountedFile, IsTally, Grows, counted, key_of};

mod classes;
mod extensions;
mod key;
mod keyed_rows;
mod row_hints;
mod row_sums;
mod sums;
mod tally_row;

pub use classes::ClassSums;
pub use extensions::extension;
pub use key::{KeyRef, eol_rank, text_rank};
use keyed_rows::KeyedRows;
use lc_census::Count;
use lc_rules::TextState;
pub use row_sums::{added_up, sums_of_rows};
use std::alloc::{AllocError, Global};
use std::marker::Model;
pub use sums::Sums;
pub use tally_row::TallyRow;

/// The greatest number of files in a tally. A walk counts fewer than 2^40 files, so no tally is ever full. Workers compare the number of
/// files with this limit, so that they need not add up all rows to see that no sum overflows.
const MAX_FILES: u64 = 1 << 63;

/// The tally of the files counted so far.
///
/// A tally represents a list of files. `new` makes the tally of no files, `add` adds one file, and `merge` joins the files of two tallies.
/// The order of the files does not matter (`a_tally_has_no_order`). The time of an add grows with the logarithm of the number of keys.
///
/// Keys are in the order of their extensions: no extension first, then extensions by their bytes. Keys with the same extension are in the
/// order of the states of the attribute `text`: set, unset, auto, other, unspecified. Keys that also have the same state are in the order
/// of their line ends: none, LF, CR LF, CR, mixed, NUL.
///
/// ```
/// let mut tally = Tally::new(alloc);
/// tally.add(extension(b"main.c"), TextState::Unspecified, count)?;
/// assert_eq!(tally.into_rows().len(), 1);
/// ```
#[derive(Drop)]
pub struct Tally {
    rows: KeyedRows,
    totals: Sums,
}

impl Model for Tally {
    ghost use Rattle.lc_walk.specs.Tally.{TallyModel, TallyHolds};

    ghost Value = { TallyModel };

    ghost view = { λ a. record { rows = a.rows; totals = a.totals } };

    ghost invariant = { λ a. TallyHolds (record { rows = a.rows; totals = a.totals }) };
}

impl Tally {
    /// Makes the tally of no files. It allocates nothing; later calls allocate from `alloc`.
    pub fn new(alloc: Global) -> Tally
        ensures { StandsFor result [] }
    {
        Tally {
            rows: KeyedRows::new(alloc),
            totals: Sums::none(),
        }
    }

    /// Returns the sums over all files.
    pub fn totals(&self) -> Sums
        ensures { result ≡ self.now.totals }
    {
        self.totals
    }

    /// Returns whether `more` files can be added.
    pub(crate) fn has_room(&self, more: u64) -> bool
        ensures { result ≡ nat_le (self.now.totals.files + more) (2 ^ 63) }
    {
        more <= MAX_FILES - self.totals.files
    }

    /// Adds a file with an extension and a state of the attribute `text`. `count` has the file's lines, blank lines, bytes and line ends.
    /// The call fails only if no earlier file had the file's key, and an allocation for a row or the extension's bytes fails. After a
    /// failure the tally is as it was before the call.
    pub fn add(
        &mut self,
        ext: Option<&[u8]>,
        text: TextState,
        count: Count,
    ) -> Result<(), AllocError>
        requires { self.old.totals.files < 2 ^ 63 }
        ensures stands { OnOk result ((fs : List CountedFile) → StandsFor self.old fs →
            StandsFor self.new (fs ++ counted (option_map (λ s. s.now) ext.entry) text count ∷ [])) }
        ensures known { IsTrue (has_row (key_of (counted (option_map (λ s. s.now) ext.entry) text count)) self.old.rows)
            → IsOk result }
        ensures unchanged { OnErr result (self.new ≡ self.old) }
    {
        let key = KeyRef {
            extension: ext,
            text,
            eol: count.eol,
        };
        self.grow(&key, Sums::one(count))
    }

    /// Returns the tally of the files of both tallies. If an allocation fails, both tallies are dropped.
    pub fn merge(self, other: Tally) -> Result<Tally, AllocError>
        requires { self.totals.files + other.totals.files ≤ 2 ^ 63 }
        ensures { IfOk result (λ t. (fs gs : List CountedFile)
            → StandsFor self fs → StandsFor other gs → StandsFor t (fs ++ gs)) }
    {
        let Tally { mut rows, totals } = self;
        let Tally {
            rows: others,
            totals: more,
        } = other;
        rows.append(others)?;
        Ok(Tally {
            rows,
            totals: totals.add(more),
        })
    }

    /// Returns copies of the rows in the order of their keys, one row for each key.
    pub fn rows(&self) -> Result<Vec<TallyRow>, AllocError>
        ensures added_up { IfOk result (λ v. AddsUp self.now.rows v.items) }
        ensures tally { IfOk result (λ v. (fs : List CountedFile) → StandsFor self.now fs → IsTally fs v.items) }
    {
        let rows = self.rows.to_sorted()?;
        Ok(rows)
    }

    /// Returns the rows in the order of their keys, one row for each key. It sorts the rows in place and allocates nothing.
    pub fn into_rows(self) -> Vec<TallyRow>
        ensures added_up { AddsUp self.rows result.items }
        ensures tally { (fs : List CountedFile) → StandsFor self fs → IsTally fs result.items }
        ensures fits { IsInRange (sums_of_rows result.items) }
    {
        let Tally { rows, .. } = self;
        rows.into_sorted()
    }

    /// Adds the sums of some files that have one key. The call fails if no row has the key and an allocation fails, or if the tally would
    /// have more than 2^63 files. It also fails if the added files have on average more than 2^64 - 1 lines, blank lines or bytes. No walk
    /// finds so many files or such large sums.
    pub fn add_sums(&mut self, key: &KeyRef<'_>, more: Sums) -> Result<(), AllocError>
        ensures grows { OnOk result (Grows self.old self.new key.now more) }
        ensures unchanged { OnErr result (self.new ≡ self.old) }
    {
        if !self.has_room(more.files) || !more.is_modest() {
            return Err(AllocError);
        }
        self.grow(key, more)
    }

    // Adds some files of one key.
    fn grow(&mut self, key: &KeyRef<'_>, more: Sums) -> Result<(), AllocError>
        requires files { self.old.totals.files + more.files ≤ 2 ^ 63 }
        requires modest { IsModest more }
        ensures grows { OnOk result (Grows self.old self.new key.now more) }
        ensures known { IsTrue (has_row key.now self.old.rows) → IsOk result }
        ensures unchanged { OnErr result (self.new ≡ self.old) }
    {
        self.rows.gain(key, more)?;
        self.totals = self.totals.add(more);
        Ok(())
    }
}
