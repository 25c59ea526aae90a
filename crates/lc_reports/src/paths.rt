//! Refusing reports that list two files with the same path.

ghost use Rattle.std.specs.Prelude.{◌≡◌, ◌++◌, map, option_map, IfOk, MatchResult, OnOk};
ghost use Rattle.std.specs.List.Sorted.{IsPermutation, IsSortedByKey};
ghost use Rattle.lc_tree.specs.ByteOrder.{bytes_cmp};
ghost use Rattle.lc_reports.specs.Paths.{AreApart, first_repeated, is_first, paths_of};
ghost use Rattle.lc_reports.specs.Sums.{HasSamePath};

use crate::part::Part;
use crate::sum_fault::SumFault;
use lc_walk::FileLine;
use std::alloc::{AllocError, Global};
use std::marker::Model;

/// The path of a listed file.
#[derive(Drop)]
struct Listed<'p> {
    path: &'p [u8],
}

impl<'p> Model for Listed<'p> {
    ghost use Rattle.std.specs.Prelude.{ℕ, List};

    ghost Value = { List ℕ };

    ghost view = { λ l. l.path.now };
}

/// Appends the paths of these files.
fn push_paths<'p>(files: &'p [FileLine], paths: &mut Vec<Listed<'p>>) -> Result<(), AllocError>
    ensures { OnOk result (paths.new.items ≡ paths.old.items ++ map (λ f. f.path) files.entry.now) }
{
    let mut rest = files;
    'files: while let Some((file, others)) = rest.split_first() {
        paths.push(Listed { path: &file.path })?;
        rest = others;
    }
    Ok(())
}

/// Returns the paths of all files that the reports list.
fn paths_of<'p>(alloc: Global, parts: &'p [Part<'_>]) -> Result<Vec<Listed<'p>>, AllocError>
    ensures { IfOk result (λ paths. paths.items ≡ paths_of parts.entry.now) }
{
    let mut paths = Vec::new(alloc);
    let mut rest = parts;
    'parts: while let [part, others @ ..] = rest {
        push_paths(&part.report.files, &mut paths)?;
        rest = others;
    }
    Ok(paths)
}

/// Sorts paths. A stable sort is used, because it merges the paths of the reports, which each report has in order.
fn sort(paths: &mut Vec<Listed<'_>>) -> Result<(), AllocError>
    ensures same { IsPermutation paths.old.items paths.new.items }
    ensures order { OnOk result (IsSortedByKey (λ path. path) bytes_cmp paths.new.items) }
{
    paths.sort_by(|a, b| a.path.cmp(b.path))?;
    Ok(())
}

/// Returns whether a path is equal to the first of these others.
fn is_first(path: &Listed<'_>, others: &[Listed<'_>]) -> bool
    ensures { result ≡ is_first path.now others.now }
{
    match others.split_first() {
        Some((next, _)) => next.path == path.path,
        None => false,
    }
}

/// Returns the first path that is equal to the next one.
fn first_repeated<'p>(paths: &[Listed<'p>]) -> Option<&'p [u8]>
    ensures { option_map (λ path. path.now) result ≡ first_repeated paths.now }
{
    let mut rest = paths;
    'paths: while let [path, others @ ..] = rest {
        if is_first(path, others) {
            return Some(path.path);
        }
        rest = others;
    }
    None
}

fn copy_of(alloc: Global, path: &[u8]) -> Result<Vec<u8>, AllocError>
    ensures { IfOk result (λ copy. copy.items ≡ path.now) }
{
    let copy = path.to_vec(alloc)?;
    Ok(copy)
}

/// Refuses reports if two of their listed files have the same path.
pub(crate) fn refuse_same_path<'n>(alloc: Global, parts: &[Part<'n>]) -> Result<(), SumFault<'n>>
    ensures { MatchResult result (λ done. AreApart (paths_of parts.now)) (HasSamePath parts.now) }
{
    let mut paths = paths_of(alloc, parts)?;
    sort(&mut paths)?;
    match first_repeated(&paths) {
        None => Ok(()),
        Some(path) => {
            let path = copy_of(alloc, path)?;
            Err(SumFault::SamePath(path))
        }
    }
}
