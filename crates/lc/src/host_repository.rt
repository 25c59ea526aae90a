//! Finds the Git repository that contains a directory of the host's file system.

use lc_program::Repository;
use std::alloc::{AllocError, Global};
use std::fs;
use std::path::Path;
use std::rt::Files;

/// The greatest number of `..` in a path that leads up to a repository's top from the directory that the program runs in.
const MAX_STEPS: usize = 8;

/// Returns whether a directory has an entry `.git`. If the host can't read the entry's metadata, the answer is no.
fn has_git<R: Files + AllocGlobal>(rt: &R, alloc: Global, directory: Path<'_>) -> bool {
    match directory.join(alloc, ".git") {
        Ok(git) => fs::symlink_metadata(rt, git.as_path()).is_ok(),
        Err(AllocError) => false,
    }
}

/// Returns the top directory of the repository that a directory lies in, or `None` if the directory is a top itself or lies in no
/// repository.
fn top_above<'p, R: Files + AllocGlobal>(
    rt: &R,
    alloc: Global,
    path: Path<'p>,
) -> Option<Path<'p>> {
    if has_git(rt, alloc, path) {
        return None;
    }
    for above in path.ancestors().skip(1) {
        if has_git(rt, alloc, above) {
            return Some(above);
        }
    }
    None
}

/// Returns whether a path leads to `top`, the absolute path of a repository's top directory.
fn leads_to<R: Files + AllocGlobal>(rt: &R, path: &str, top: Path<'_>) -> bool {
    match fs::canonicalize(rt, path) {
        Ok(found) => found.as_path().as_str() == top.as_str(),
        Err(_) => false,
    }
}

/// Returns the path of a repository's top from the directory that the program runs in: `.`, or at most [`MAX_STEPS`] times `..`. Returns
/// `None` if there is no such path.
fn name_from_here<R: Files + AllocGlobal>(
    rt: &R,
    alloc: Global,
    top: Path<'_>,
) -> Option<Result<String, AllocError>> {
    let here = fs::canonicalize(rt, ".").ok()?;
    let below = here.as_path().strip_prefix(top).ok()?;
    let steps = below.components().count();
    if steps > MAX_STEPS {
        return None;
    }
    Some(steps_up(alloc, steps))
}

/// Makes the path that leads up by this many directories, such as `../..`, or `.` if the number is 0.
fn steps_up(alloc: Global, steps: usize) -> Result<String, AllocError> {
    if steps == 0 {
        return String::from_str(alloc, ".");
    }
    let mut path = String::from_str(alloc, "..")?;
    for _ in 1..steps {
        path.push_str("/..")?;
    }
    Ok(path)
}

/// Returns the part of a directory's path before `inner`, if the path ends with `inner`. `inner` is the directory's path in its repository.
fn front_of<'d>(directory: &'d str, inner: &str) -> Option<&'d str> {
    let front = directory.trim_end_matches('/').strip_suffix(inner)?;
    let front = front.strip_suffix('/')?;
    if front.is_empty() {
        Some("/")
    } else {
        Some(front)
    }
}

/// Returns a path of a repository's top that a command line can use: from the directory that the program runs in, the part of `directory`
/// before `inner`, or the absolute path. `inner` is the directory's path in the repository.
fn name_of_top<R: Files + AllocGlobal>(
    rt: &R,
    alloc: Global,
    directory: &str,
    top: Path<'_>,
    inner: Path<'_>,
) -> Result<String, AllocError> {
    if let Some(name) = name_from_here(rt, alloc, top) {
        return name;
    }
    match front_of(directory, inner.as_str()) {
        Some(front) if leads_to(rt, front, top) => String::from_str(alloc, front),
        _ => String::from_str(alloc, top.as_str()),
    }
}

/// Returns the repository that a directory lies in, if the directory is below the repository's top.
pub(crate) fn repository_above<R: Files + AllocGlobal>(
    rt: &R,
    alloc: Global,
    directory: &str,
) -> Option<Repository> {
    let path = fs::canonicalize(rt, directory).ok()?;
    let top = top_above(rt, alloc, path.as_path())?;
    let inner = path.as_path().strip_prefix(top).ok()?;
    let name = name_of_top(rt, alloc, directory, top, inner).ok()?;
    let path = String::from_str(alloc, inner.as_str()).ok()?;
    Some(Repository { top: name, path })
}
