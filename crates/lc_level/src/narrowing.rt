//! Deciding which entries of a directory the paths of `--only` select, and which of these paths are absent.
ghost use Rattle.std.specs.Prelude.{◌≡◌, ◌∷◌, ◌++◌, [], IfOk, map};
ghost use Rattle.std.specs.List.{filter, list_any};
ghost use Rattle.lc_level.specs.Level.{absent_faults};
ghost use Rattle.lc_level.specs.Narrowing.{leads_to, has_part};
ghost use Rattle.lc_level.specs.PathSteps.{is_led_to, unled};
ghost use Rattle.lc_tree.specs.ByteOrder.{AreInOrder};
ghost use Rattle.lc_tree.specs.Listing.{IsListing};

pub(crate) mod below;
pub(crate) mod included;
pub(crate) mod only_paths;
pub(crate) mod sorted_paths;

use crate::FaultWord;
use crate::entry_looks::entry_named;
use crate::lines::FaultLine;
use crate::narrowing::below::stands_below;
use crate::narrowing::sorted_paths::{has_below, is_among};
use lc_glob::cut_at_first;
use lc_tree::{Entry, Kind};
use std::alloc::{AllocError, Global};
use std::marker::Model;

/// What the paths of `--only` select of a directory.
#[derive(Drop)]
pub(crate) struct Selection<'o> {
    // Whether all of the directory is.
    pub(crate) whole: bool,
    // The paths below it, seen from it: each once, in the order of their bytes.
    pub(crate) rests: Vec<&'o [u8]>,
}

impl<'o> Model for Selection<'o> {
    ghost use Rattle.std.specs.Prelude.{map};
    ghost use Rattle.lc_level.specs.Narrowing.{SelectionModel};
    ghost use Rattle.lc_tree.specs.ByteOrder.{AreInOrder};

    ghost Value = { SelectionModel };

    ghost view = { λ w. record { whole = w.whole; rests = map (λ rest. rest.now) w.rests.items } };

    ghost invariant = { λ w. AreInOrder (map (λ rest. rest.now) w.rests.items) };
}

/// Returns whether an entry is at one of these paths, or is a directory above one. The paths are relative to the entry's parent.
fn leads_on(rests: &[&[u8]], entry: &Entry) -> bool
    requires { AreInOrder (map (λ rest. rest.now) rests.now) }
    ensures { result ≡ list_any (leads_to entry.now) (map (λ rest. rest.now) rests.now) }
{
    if is_among(rests, &entry.name) {
        return true;
    }
    match entry.kind {
        Kind::Dir => has_below(rests, &entry.name),
        Kind::File | Kind::Other(_) => false,
    }
}

/// Returns whether an entry is at this path, or is a directory above it. The path is relative to the entry's parent.
fn leads_to(entry: &Entry, rest: &[u8]) -> bool
    ensures { result ≡ leads_to entry.now rest.now }
{
    if entry.name.as_slice() == rest {
        return true;
    }
    match entry.kind {
        Kind::Dir => stands_below(rest, &entry.name),
        Kind::File | Kind::Other(_) => false,
    }
}

/// Returns whether one of a directory's entries is at a path, or is a directory above it. The path is relative to this directory. Only the
/// entry with the path's first name can lead there.
fn is_led_to(entries: &[Entry], rest: &[u8]) -> bool
    requires { IsListing entries.now }
    ensures { result ≡ is_led_to entries.now rest.now }
{
    let (name, _) = cut_at_first(b'/', rest);
    match entry_named(entries, name) {
        Some(entry) => leads_to(entry, rest),
        None => false,
    }
}

/// Adds an error for a path of `--only` if no entry of the directory is at the path or is a directory above it. The path is relative to the
/// directory.
fn add_unled(
    alloc: Global,
    rest: &[u8],
    entries: &[Entry],
    absent: &mut Vec<FaultLine>,
) -> Result<(), AllocError>
    requires { IsListing entries.now }
    ensures { IfOk result (λ _. absent.new.items ≡ absent.old.items ++ absent_faults (unled entries.now (rest.now ∷ []))) }
{
    if is_led_to(entries, rest) {
        return Ok(());
    }
    let path = rest.to_vec(alloc)?;
    match absent.push(FaultLine {
        path,
        word: FaultWord::Absent,
    }) {
        Ok(()) => Ok(()),
        Err(_) => Err(AllocError),
    }
}

impl<'o> Selection<'o> {
    /// Returns the entries of the directory that the paths of `--only` select. If all of it is selected, nothing is allocated.
    pub(crate) fn part_of(
        &self,
        alloc: Global,
        entries: Vec<Entry>,
    ) -> Result<Vec<Entry>, AllocError>
        ensures { IfOk result (λ part. part.items ≡ filter (has_part self.now) entries.items) }
    {
        if self.whole {
            return Ok(entries);
        }
        let mut part = Vec::new(alloc);
        for entry in entries {
            if leads_on(&self.rests, &entry) {
                part.push(entry)?;
            }
        }
        Ok(part)
    }

    /// Returns an error for each path of `--only` that is absent: no entry of the directory is at the path or is a directory above it.
    pub(crate) fn absent(
        &self,
        alloc: Global,
        entries: &[Entry],
    ) -> Result<Vec<FaultLine>, AllocError>
        requires { IsListing entries.now }
        ensures { IfOk result (λ absent. absent.items ≡ absent_faults (unled entries.now self.now.rests)) }
    {
        let mut absent = Vec::new(alloc);
        for rest in &self.rests {
            add_unled(alloc, rest, entries, &mut absent)?;
        }
        Ok(absent)
    }
}
