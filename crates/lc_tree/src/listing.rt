//! The listing of a directory: its entries in the order of their names.
ghost use Rattle.std.specs.Prelude.{◌≡◌, MatchResult};
ghost use Rattle.std.specs.Bool.{MatchBool};
ghost use Rattle.std.specs.List.Sorted.{IsPermutation, IsSorted, IsStrictlySortedBy};
ghost use Rattle.lc_tree.specs.Listing.{by_name, names, have_good_names, HaveDistinctNames, IsAnswerFor};
ghost use Rattle.lc_tree.specs.Listing.{IsListing, IsListingOf, IsRefusedBy};
ghost use Rattle.lc_tree.specs.Trees.{Lists};
ghost use Rattle.lc_tree.specs.ByteOrder.{bytes_cmp};

use crate::ReadFault;
use crate::entry::Entry;
use lc_glob::path::is_good_name;
use std::marker::Model;
use thiserror::Error;

/// The maximum number of entries of a listing.
pub const MAX_ENTRIES: usize = 1_048_576;

/// Why a list of entries makes no listing. If several variants apply, the variant that is declared first is returned.
#[derive(Clone, Copy, Debug, Drop, PartialEq, Eq, Error)]
pub enum ListingFault {
    /// A name is empty, `.` or `..`, or has a slash or a NUL byte.
    #[error("a bad name")]
    BadName,
    /// Two entries have the same name.
    #[error("a name stands twice")]
    Twice,
    /// There are over `MAX_ENTRIES` entries.
    #[error("too many entries")]
    TooMany,
    /// An allocation failed.
    #[error("out of memory")]
    Memory,
}

/// The entries of a directory, in the order of their names' bytes.
///
/// Each name is good: it is neither empty nor `.` nor `..`, and has neither a slash nor a NUL byte. No two entries have the same name, and
/// there are at most `MAX_ENTRIES` entries.
#[derive(Debug, Drop)]
pub struct Listing {
    entries: Vec<Entry>,
}

impl Model for Listing {
    ghost use Rattle.std.specs.Prelude.{List};
    ghost use Rattle.lc_tree.specs.Listing.{EntryModel, IsListing};

    ghost Value = { List EntryModel };

    ghost view = { λ l. l.entries.items };

    ghost invariant = { λ l. IsListing l.entries.items };
}

impl Listing {
    /// Makes the listing of these entries, which are sorted in place in `O(n log n)` comparisons of names. Allocates nothing, so the error
    /// is never `ListingFault::Memory`. On an error the entries are dropped.
    ///
    /// ```
    /// let listing = Listing::new(entries)?; // of `b` and `a`
    /// assert!(listing.entries()[0].name == b"a");
    /// ```
    pub fn new(entries: Vec<Entry>) -> Result<Listing, ListingFault>
        ensures { MatchResult result (IsListingOf entries.items) (IsRefusedBy entries.items) }
    {
        let mut entries = entries;
        if !all_good(&entries) {
            return Err(ListingFault::BadName);
        }
        sort_by_name(&mut entries);
        if !are_distinct(&entries) {
            return Err(ListingFault::Twice);
        }
        if entries.len() > MAX_ENTRIES {
            return Err(ListingFault::TooMany);
        }
        Ok(Listing { entries })
    }

    /// Returns all entries, in the order of their names' bytes, to be moved out one by one.
    pub fn into_entries(self) -> Vec<Entry>
        ensures same { result.items ≡ self }
        ensures listing { IsListing result.items }
    {
        let Listing { entries } = self;
        entries
    }

    /// Returns all entries, in the order of their names' bytes.
    pub fn entries(&self) -> &[Entry]
        ensures same { result.now ≡ self.now }
        ensures listing { IsListing result.now }
    {
        &self.entries
    }
}

/// Returns the listing of these entries, or the error of listing a directory that has these entries.
pub(crate) fn listed(entries: Vec<Entry>) -> Result<Listing, ReadFault>
    ensures { Lists (IsAnswerFor entries.items) result }
{
    Ok(Listing::new(entries)?)
}

fn all_good(entries: &[Entry]) -> bool
    ensures { result ≡ have_good_names entries.now }
{
    entries.iter().all(|entry| is_good_name(&entry.name))
}

fn sort_by_name(entries: &mut Vec<Entry>)
    ensures same { IsPermutation entries.old.items entries.new.items }
    ensures order { IsSorted by_name entries.new.items }
{
    entries.sort_unstable_by(|a, b| a.name.cmp(&b.name));
}

// Returns whether sorted entries have distinct names.
fn are_distinct(entries: &[Entry]) -> bool
    requires { IsSorted by_name entries.now }
    ensures { MatchBool result (IsStrictlySortedBy bytes_cmp (names entries.now)) (HaveDistinctNames entries.now → ⊥) }
{
    entries.is_sorted_by(|a, b| a.name.cmp(&b.name).is_lt())
}
