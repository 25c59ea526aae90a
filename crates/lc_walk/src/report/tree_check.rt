//! Checking that the rows that workers added to a board, one row for each directory, make one tree of directories.
ghost use Rattle.std.specs.Prelude.{◌≡◌, ◌≢◌, ℕ, ◌+◌, ◌<◌, ◌≤◌, ◌^◌, true, false, length, slice_get, Some};
ghost use Rattle.std.specs.Prelude.{IfOk, IfErr, OnOk};
ghost use Rattle.lc_walk.specs.Rows.{row_of, job_of, children_in};
ghost use Rattle.lc_glob.specs.Path.{path_in};
ghost use Rattle.lc_walk.specs.Assembled.{IsPlaced};
ghost use Rattle.lc_walk.specs.Links.{AreLinked, IsNext, IsPathAt, RefusesTree};

use crate::report::row_lines::row_of;
use crate::row::{Child, Row};
use lc_board::Ended;
use lc_level::relative_to;
use std::alloc::Global;

/// Why `check_tree` returns an error for the rows of a board.
#[derive(Clone, Copy, PartialEq, Eq, Debug, Drop)]
pub enum TreeFault {
    /// An allocation failed.
    Memory,
    /// The rows make no tree: the directory with this number on the board has no row, a wrong path, or not exactly one parent with a lower
    /// number.
    Torn(u32),
}

/// Returns the path of the directory that a row is about.
pub fn path_of(row: &Row) -> &[u8]
    ensures { result.now ≡ (job_of row.now).path }
{
    match row {
        Row::Listed(row) => row.job().path(),
        Row::Faulted(row) => row.job.path(),
        Row::Broken(row) => row.job.path(),
    }
}

/// Returns the child directories that a directory's row names.
pub fn children_of(row: &Row) -> &[Child]
    ensures { result.now ≡ children_in row.now }
{
    match row {
        Row::Listed(row) => row.children(),
        Row::Faulted(_) | Row::Broken(_) => &[],
    }
}

/// Returns whether `path` is the path of the directory followed by the child's name.
fn is_child_path(directory: &[u8], child: &Child, path: &[u8]) -> bool
    ensures is { result ≡ true → path.now ≡ path_in directory.now child.now.name }
    ensures other { result ≡ false → path.now ≢ path_in directory.now child.now.name }
{
    match relative_to(directory, path) {
        Some(name) => name == child.name.as_slice(),
        None => false,
    }
}

fn is_marked(linked: &[bool], at: usize) -> bool
    requires { at < length linked.now }
    ensures { slice_get linked.now at ≡ Some result }
{
    linked[at]
}

/// Returns the path of the directory with the number `at`.
fn path_at(rows: &[Ended<Row>], at: usize) -> &[u8]
    requires { at < length rows.now }
    ensures { IsPathAt rows.now at result.now }
{
    path_of(row_of(&rows[at]))
}

/// Marks the number of a child directory in `linked`. The child is at `place` in the row of the directory with the number `at`.
fn link(
    rows: &[Ended<Row>],
    at: usize,
    place: usize,
    child: &Child,
    linked: &mut [bool],
) -> Result<(), TreeFault>
    requires at { at < length rows.now }
    requires few { length rows.now ≤ 2 ^ 32 }
    requires next { IsNext rows.now at place child.now }
    requires marks { AreLinked rows.now at place linked.old }
    ensures marks { OnOk result (AreLinked rows.now at (place + 1) linked.new) }
    ensures torn { IfErr result (RefusesTree rows.now) }
{
    let number = child.number as usize;
    if number == 0 {
        return Ok(());
    }
    if number >= rows.len() {
        return Ok(());
    }
    if is_marked(linked, number) {
        return Err(TreeFault::Torn(number as u32));
    }
    if at >= number {
        return Err(TreeFault::Torn(number as u32));
    }
    let path = path_at(rows, number);
    if !is_child_path(path_at(rows, at), child, path) {
        return Err(TreeFault::Torn(number as u32));
    }
    linked[number] = true;
    Ok(())
}

/// Marks the numbers of all child directories of the directory with the number `at`.
fn link_row(rows: &[Ended<Row>], at: usize, linked: &mut [bool]) -> Result<(), TreeFault>
    requires at { at < length rows.now }
    requires few { length rows.now ≤ 2 ^ 32 }
    requires marks { AreLinked rows.now at 0 linked.old }
    ensures marks { OnOk result (AreLinked rows.now (at + 1) 0 linked.new) }
    ensures torn { IfErr result (RefusesTree rows.now) }
{
    let children = children_of(row_of(&rows[at]));
    for place in 0..children.len() {
        link(rows, at, place, &children[place], linked)?;
    }
    Ok(())
}

/// Returns a mark for each number, which says whether some row names the directory with this number as a child.
fn link_all(alloc: Global, rows: &[Ended<Row>]) -> Result<Vec<bool>, TreeFault>
    requires few { length rows.now ≤ 2 ^ 32 }
    ensures marks { IfOk result (λ linked. AreLinked rows.now (length rows.now) 0 linked.items) }
    ensures torn { IfErr result (RefusesTree rows.now) }
{
    let Ok(mut linked) = vec![in alloc; false; rows.len()] else {
        return Err(TreeFault::Memory);
    };
    for at in 0..rows.len() {
        link_row(rows, at, &mut linked)?;
    }
    Ok(linked)
}

/// Checks that the rows make a tree. The path of the top must be empty. Each other directory must be the child of exactly one directory,
/// which must have a lower number on the board. The child's path must be the path of this parent followed by the child's name. If the rows
/// make no tree, the error `Torn` has the number of a directory that breaks one of these conditions.
pub fn check_tree(alloc: Global, rows: &[Ended<Row>]) -> Result<(), TreeFault>
    requires few { length rows.now ≤ 2 ^ 32 }
    ensures placed { IfOk result (λ _. (k : ℕ) → IsPlaced rows.now k) }
    ensures torn { IfErr result (RefusesTree rows.now) }
{
    if rows.is_empty() {
        return Err(TreeFault::Torn(0));
    }
    if path_at(rows, 0).len() > 0 {
        return Err(TreeFault::Torn(0));
    }
    let linked = link_all(alloc, rows)?;
    for number in 1..rows.len() {
        if !is_marked(&linked, number) {
            return Err(TreeFault::Torn(number as u32));
        }
    }
    Ok(())
}
