//! The paths of `--only`, sorted once, and what they select in a directory.
ghost use Rattle.std.specs.Prelude.{◌≡◌, ◌≤◌, IfOk, None, Some, false, true, length, map};
ghost use Rattle.std.specs.List.{filter_map, AllByRecursion};
ghost use Rattle.std.specs.List.Sorted.{IsPartitionPoint};
ghost use Rattle.lc_level.specs.Narrowing.{each_once, is_whole, rest_from, rests, selection_in};
ghost use Rattle.lc_level.specs.PathSteps.{comes_before};
ghost use Rattle.lc_tree.specs.ByteOrder.{AreInOrder};

use crate::narrowing::Selection;
use crate::narrowing::below::{is_before_below, rest_from};
use crate::narrowing::sorted_paths::is_within;
use std::alloc::{AllocError, Global};
use std::marker::Model;

/// The paths of `--only`, sorted once. For each directory, binary searches find which of the paths are below the directory, and whether one
/// of the paths is at the directory or above it.
///
/// ```
/// let only = OnlyPaths::new(alloc, &[b"src", b"docs/a.md"])?;
/// let sources = Filters { only, ..Filters::none(alloc) };
/// ```
#[derive(Drop)]
pub struct OnlyPaths<'o> {
    asked: Option<&'o [&'o [u8]]>,
    // Each path once, in the order of their bytes.
    sorted: Vec<&'o [u8]>,
}

impl<'o> Model for OnlyPaths<'o> {
    ghost use Rattle.std.specs.Prelude.{◌≡◌, ℕ, List, Option, map, option_map};
    ghost use Rattle.lc_level.specs.Narrowing.{each_once, paths_in};

    ghost Value = { Option (List (List ℕ)) };

    ghost view = { λ p. option_map (λ paths. map (λ path. path.now) paths.now) p.asked };

    ghost invariant = { λ p. map (λ path. path.now) p.sorted.items
        ≡ each_once (paths_in (option_map (λ paths. map (λ path. path.now) paths.now) p.asked)) };
}

/// Returns whether a path comes before all paths below a directory, in the order of their bytes.
fn comes_before(path: &[u8], directory: &[u8]) -> bool
    ensures { result ≡ comes_before directory.now path.now }
{
    if directory.is_empty() {
        return path.is_empty();
    }
    is_before_below(path, directory)
}

/// Returns the index of the first of these sorted paths that does not sort before the paths below a directory.
fn first_past(paths: &[&[u8]], directory: &[u8]) -> usize
    requires { AreInOrder (map (λ path. path.now) paths.now) }
    ensures within { result ≤ length paths.now }
    ensures place { IsPartitionPoint (λ path. comes_before directory.now path.now ≡ true)
        (λ path. comes_before directory.now path.now ≡ false) paths.now result }
{
    paths.partition_point(|path| comes_before(path, directory))
}

/// Returns those of `paths` that are under a directory, relative to the directory. `paths` is sorted, and none of its paths sorts before
/// those under the directory.
fn seen_from<'o>(
    alloc: Global,
    directory: &[u8],
    paths: &[&'o [u8]],
) -> Result<Vec<&'o [u8]>, AllocError>
    requires order { AreInOrder (map (λ path. path.now) paths.now) }
    requires past { AllByRecursion (λ path. comes_before directory.now path ≡ false) (map (λ path. path.now) paths.now) }
    ensures { IfOk result (λ seen. map (λ rest. rest.now) seen.items
        ≡ filter_map (rest_from directory.now) (map (λ path. path.now) paths.now)) }
{
    let mut seen = Vec::new(alloc);
    for path in paths {
        let Some(rest) = rest_from(directory, path) else {
            return Ok(seen);
        };
        seen.push(rest)?;
    }
    Ok(seen)
}

impl<'o> OnlyPaths<'o> {
    /// Gives no paths, which selects all of a tree.
    pub fn none(alloc: Global) -> OnlyPaths<'o>
        ensures { result ≡ None }
    {
        OnlyPaths {
            asked: None,
            sorted: Vec::new(alloc),
        }
    }

    /// Sorts the paths `asked`. Each path is relative to the top of the tree, and has no slash at its end. If the list is empty,
    /// nothing but the top itself is selected.
    pub fn new(alloc: Global, asked: &'o [&'o [u8]]) -> Result<OnlyPaths<'o>, AllocError>
        ensures { IfOk result (λ only. only ≡ Some (map (λ path. path.now) asked.entry.now)) }
    {
        let mut sorted = asked.to_vec(alloc)?;
        sorted.sort_unstable();
        sorted.dedup();
        Ok(OnlyPaths {
            asked: Some(asked),
            sorted,
        })
    }

    /// Returns whether all of a directory is selected.
    fn is_whole(&self, directory: &[u8]) -> bool
        ensures { result ≡ is_whole self.now directory.now }
    {
        let sorted = self.sorted.as_slice();
        self.asked.is_none() || is_within(sorted, directory)
    }

    /// Returns the paths under a directory, relative to it. If there are none, nothing is allocated.
    fn rests(&self, alloc: Global, directory: &[u8]) -> Result<Vec<&'o [u8]>, AllocError>
        ensures { IfOk result (λ seen. map (λ rest. rest.now) seen.items ≡ rests self.now directory.now) }
    {
        let sorted = self.sorted.as_slice();
        let at = first_past(sorted, directory);
        let seen = seen_from(alloc, directory, &sorted[at..])?;
        Ok(seen)
    }

    /// Returns what the paths select of a directory.
    pub(crate) fn selection_in(
        &self,
        alloc: Global,
        directory: &[u8],
    ) -> Result<Selection<'o>, AllocError>
        ensures { IfOk result (λ wanted. wanted ≡ selection_in self.now directory.now) }
    {
        let rests = self.rests(alloc, directory)?;
        Ok(Selection {
            whole: self.is_whole(directory),
            rests,
        })
    }
}
