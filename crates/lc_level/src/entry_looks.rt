//! Searching the entries of a directory.
ghost use Rattle.std.specs.Prelude.{◌≡◌, bytes_eq, find, option_map};
ghost use Rattle.lc_level.specs.EntryLooks.{has_file, has_dir};
ghost use Rattle.lc_tree.specs.ByteOrder.{bytes_cmp};
ghost use Rattle.lc_tree.specs.Listing.{EntryModel, IsListing};

use lc_tree::{Entry, Listing};
use std::cmp::Ordering;

/// Returns the entry with this name, if there is one, by a binary search. Requires entries in the order of their names, as in a
/// `Listing`.
///
/// ```
/// let found = entry_named(listing.entries(), b"src");
/// assert!(found.is_some_and(|entry| entry.kind.is_dir()));
/// ```
pub fn entry_named<'e>(entries: &'e [Entry], name: &[u8]) -> Option<&'e Entry>
    requires { IsListing entries.now }
    ensures { option_map (λ entry. entry.now) result ≡ find (λ (e : EntryModel). bytes_eq e.name name.now) entries.now }
{
    let order = |entry: &Entry| -> Ordering
        ensures { result ≡ bytes_cmp entry.now.name name.entry.now }
    { entry.name.as_slice().cmp(name) };
    match entries.binary_search_by(order) {
        Ok(at) => Some(&entries[at]),
        Err(_) => None,
    }
}

/// Returns whether a listing has a file with this name.
pub(crate) fn has_file(listing: &Listing, name: &[u8]) -> bool
    ensures { result ≡ has_file name.now listing.now }
{
    match entry_named(listing.entries(), name) {
        Some(entry) => entry.kind.is_file(),
        None => false,
    }
}

/// Returns whether a listing has a directory with this name.
pub(crate) fn has_dir(listing: &Listing, name: &[u8]) -> bool
    ensures { result ≡ has_dir name.now listing.now }
{
    match entry_named(listing.entries(), name) {
        Some(entry) => entry.kind.is_dir(),
        None => false,
    }
}
