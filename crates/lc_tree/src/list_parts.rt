//! Listing a large directory with several threads, which read the metadata of its entries in parts.
ghost use Rattle.std.specs.Prelude.{◌≡◌, ◌+◌, ◌<◌, ◌≤◌, IfOk, MatchResult, vec_len};
ghost use Rattle.lc_tree.specs.Named.{bytes_of, ListsThese, LooksAt};
ghost use Rattle.lc_tree.specs.Parts.{all_of, AreJoined, HaveLooked, IsFaultOfJoining};
ghost use Rattle.lc_tree.specs.Trees.{Lists};

use crate::listing::listed;
use crate::{Entry, Helpers, IdleThreads, Listing, ReadFault, Tree};
use std::alloc::{AllocError, Global};
use std::thread;
use std::thread::Threads;

/// The minimum number of names in a part. Reading the metadata of this many names takes several times as long as starting a thread.
const NAMES_OF_A_PART: usize = 512;

/// The maximum number of parts into which the names of a directory are cut.
const MAX_PARTS: usize = 16;

/// Lists the directory at a path of a tree, as `Tree::list` does, with the help of idle threads.
///
/// If `Tree::names` returns at least 1,024 names and threads are idle, up to 15 of these threads help. Each helper reads the metadata of a
/// part of the entries. All helpers are given back before the listing is returned. The entries, or the error, are as if one thread had read
/// one entry after another.
///
/// ```
/// let idle = IdleThreads::new(4);
/// let listing = list_in_parts(&rt, rt.alloc(), &tree, b"src", &idle)?;
/// ```
pub fn list_in_parts<T: Tree, R: Threads + Sync>(
    rt: &R,
    alloc: Global,
    tree: &T,
    path: &[u8],
    idle: &IdleThreads,
) -> Result<Listing, ReadFault>
    ensures { Lists (T.lists tree.now path.now) result }
{
    match tree.names(alloc, path) {
        Ok(Some(names)) => list_names(rt, alloc, tree, path, names, idle),
        Ok(None) => tree.list(alloc, path),
        Err(fault) => Err(fault),
    }
}

// Lists the directory at a path, which has these names.
fn list_names<T: Tree, R: Threads + Sync>(
    rt: &R,
    alloc: Global,
    tree: &T,
    path: &[u8],
    names: Vec<Vec<u8>>,
    idle: &IdleThreads,
) -> Result<Listing, ReadFault>
    ensures { Lists (ListsThese (T.shows tree.now path.now) (bytes_of names.items)) result }
{
    match look_at_all(rt, alloc, tree, path, names, idle) {
        Ok(entries) => listed(entries),
        Err(fault) => Err(fault),
    }
}

// Returns the entries of names, in parts if idle threads can be taken.
fn look_at_all<T: Tree, R: Threads + Sync>(
    rt: &R,
    alloc: Global,
    tree: &T,
    path: &[u8],
    names: Vec<Vec<u8>>,
    idle: &IdleThreads,
) -> Result<Vec<Entry>, ReadFault>
    ensures { LooksAt (T.shows tree.now path.now) (bytes_of names.items) result }
{
    let helpers = idle.take(most_helpers(names.len()));
    let entries = if helpers.count() == 0 {
        tree.look(alloc, path, names)
    } else {
        look_in_parts(rt, alloc, tree, path, names, &helpers)
    };
    idle.give_back(helpers);
    entries
}

// How many threads may help with this many names.
fn most_helpers(names: usize) -> u32
    ensures few { names < 1024 → result ≡ 0 }
    ensures most { result < 16 }
{
    let parts = MAX_PARTS.min(names / NAMES_OF_A_PART);
    parts.saturating_sub(1) as u32
}

// Returns the entries of names. Each helper and this thread read the metadata of a part of them.
fn look_in_parts<T: Tree, R: Threads + Sync>(
    rt: &R,
    alloc: Global,
    tree: &T,
    path: &[u8],
    names: Vec<Vec<u8>>,
    helpers: &Helpers,
) -> Result<Vec<Entry>, ReadFault>
    ensures { LooksAt (T.shows tree.now path.now) (bytes_of names.items) result }
{
    let Ok(runs) = cut_names(alloc, names, helpers) else {
        return Err(ReadFault::Memory);
    };
    let Ok(parts) = look_at_runs(rt, alloc, tree, path, runs, helpers) else {
        return Err(ReadFault::Memory);
    };
    join(alloc, parts)
}

// Returns the entries of each run of names, with a thread for each run but one. It starts no more threads than were taken.
fn look_at_runs<T: Tree, R: Threads + Sync>(
    rt: &R,
    alloc: Global,
    tree: &T,
    path: &[u8],
    runs: Vec<Vec<Vec<u8>>>,
    _helpers: &Helpers,
) -> Result<Vec<Result<Vec<Entry>, ReadFault>>, AllocError>
    requires { vec_len runs ≤ _helpers.now + 1 }
    ensures all { IfOk result (λ parts. vec_len parts ≡ vec_len runs) }
    ensures each { IfOk result (λ parts. HaveLooked (T.shows tree.now path.now) runs.items parts.items) }
{
    let look = |names: Vec<Vec<u8>>| -> Result<Vec<Entry>, ReadFault>
        ensures { LooksAt (T.shows tree.entry.now path.entry.now) (bytes_of names.items) result }
    { tree.look(alloc, path, names) };
    thread::map_vec(rt, runs, &look)
}

/// Cuts a list of names into parts of nearly equal length, in order: one part for each helper, and one for the calling thread.
pub fn cut_names(
    alloc: Global,
    names: Vec<Vec<u8>>,
    helpers: &Helpers,
) -> Result<Vec<Vec<Vec<u8>>>, AllocError>
    ensures all { IfOk result (λ parts. all_of parts.items ≡ names.items) }
    ensures few { IfOk result (λ parts. vec_len parts ≡ helpers.now + 1) }
{
    let mut names = names;
    let helpers = helpers.count() as usize;
    let mut parts = Vec::with_capacity(alloc, helpers.saturating_add(1))?;
    // From the last to the second, so that each name is moved once.
    'parts: while parts.len() < helpers {
        let left = helpers - parts.len() + 1;
        let part = names.split_off(names.len() - names.len() / left)?;
        parts.push(part)?;
    }
    parts.push(names)?;
    parts.reverse();
    Ok(parts)
}

// The entries of all parts, or the first fault.
fn join(alloc: Global, parts: Vec<Result<Vec<Entry>, ReadFault>>) -> Result<Vec<Entry>, ReadFault>
    ensures { MatchResult result (λ entries. AreJoined parts.items entries.items) (IsFaultOfJoining parts.items) }
{
    let mut entries = Vec::new(alloc);
    for part in parts {
        let mut part = match part {
            Ok(part) => part,
            Err(fault) => return Err(fault),
        };
        let Ok(()) = entries.append(&mut part) else {
            return Err(ReadFault::Memory);
        };
    }
    Ok(entries)
}
