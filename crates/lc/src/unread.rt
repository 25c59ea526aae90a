//! Finds out why a directory or a file of the host's file system can't be read.

use lc_program::UnreadReason;
use std::alloc::{AllocError, Global};
use std::fs;
use std::io::ErrorKind;
use std::rt::Files;

/// Returns the reason why a path could not be read, from the kind of the host's error.
fn reason_of(kind: ErrorKind) -> UnreadReason {
    match kind {
        ErrorKind::NotFound => UnreadReason::Missing,
        ErrorKind::PermissionDenied => UnreadReason::Denied,
        ErrorKind::NotADirectory => UnreadReason::NotDirectory,
        ErrorKind::IsADirectory => UnreadReason::IsDirectory,
        _ => UnreadReason::Other,
    }
}

/// Returns the path of a directory with a slash at its end. With the slash the system follows a link to the directory, as a count does.
fn with_slash(alloc: Global, directory: &str) -> Result<String, AllocError> {
    let mut path = String::from_str(alloc, directory)?;
    path.push('/')?;
    Ok(path)
}

/// Returns whether a path is that of a regular file. For the path of a symbolic link the answer is no, since a count skips links.
fn is_file(rt: &impl Files, path: &str) -> Result<bool, AllocError> {
    match fs::symlink_metadata(rt, path) {
        Ok(metadata) => Ok(metadata.is_file()),
        Err(error) if error.kind() == ErrorKind::OutOfMemory => Err(AllocError),
        Err(_) => Ok(false),
    }
}

/// Returns why a directory could not be opened. `kind` is the kind of the error that opening it returned.
fn reason_of_directory(
    rt: &impl Files,
    directory: &str,
    kind: ErrorKind,
) -> Result<UnreadReason, AllocError> {
    if kind == ErrorKind::OutOfMemory {
        return Err(AllocError);
    }
    if is_file(rt, directory)? {
        return Ok(UnreadReason::IsFile);
    }
    Ok(reason_of(kind))
}

/// Returns why a directory can't be listed, or `None` if it can. The function opens the directory to find out.
pub(crate) fn why_unlisted<R: Files>(
    rt: &R,
    alloc: Global,
    directory: &str,
) -> Result<Option<UnreadReason>, AllocError> {
    // With a slash, the empty path would be the root, but it names nothing.
    if directory.is_empty() {
        return Ok(Some(UnreadReason::Missing));
    }
    let path = with_slash(alloc, directory)?;
    match rt.open_dir(path.as_str()) {
        Ok(_) => Ok(None),
        Err(error) => Ok(Some(reason_of_directory(rt, directory, error.kind())?)),
    }
}

/// Returns why a file can't be read, or `None` if no reason is found. The function opens regular files only, since opening a pipe may wait.
pub(crate) fn why_unread<R: Files>(rt: &R, name: &str) -> Option<UnreadReason> {
    let metadata = match fs::metadata(rt, name) {
        Ok(metadata) => metadata,
        Err(error) => return Some(reason_of(error.kind())),
    };
    if metadata.is_dir() {
        return Some(UnreadReason::IsDirectory);
    }
    if !metadata.is_file() {
        return None;
    }
    match fs::open(rt, name) {
        Ok(_) => None,
        Err(error) => Some(reason_of(error.kind())),
    }
}
