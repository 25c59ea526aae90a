//! Paths: the names from a directory down to one of its entries, joined by slashes.

ghost use Rattle.std.specs.Prelude.{◌≡◌, nat_lt, length, OnOk, OnErr};
ghost use Rattle.lc_glob.specs.Path.{is_good_name, is_good_path, depth_of, path_in, max_path, max_depth};

use crate::cut::cut_at_first;
use std::alloc::AllocError;

/// The greatest number of bytes of a path.
pub const MAX_PATH: usize = 4_096;

/// The greatest number of segments of a directory's path.
pub const MAX_DEPTH: usize = 256;

/// Returns whether a directory can have an entry of this name: it is neither empty nor `.` nor `..`, and has neither a slash nor a NUL
/// byte.
///
/// ```
/// assert!(rt; is_good_name(b"...") && !is_good_name(b".."));
/// ```
pub fn is_good_name(name: &[u8]) -> bool
    ensures { result ≡ is_good_name name.now }
{
    !matches!(name, [] | [b'.'] | [b'.', b'.']) && !name.contains(&b'/') && !name.contains(&0)
}

/// Returns whether a tree can have an entry of this path: `is_good_name` holds for each of its segments. For the empty path the result is
/// false.
///
/// ```
/// assert!(rt; is_good_path(b"a/b") && !is_good_path(b"a//b"));
/// ```
pub fn is_good_path(path: &[u8]) -> bool
    ensures { result ≡ is_good_path path.now }
{
    let mut rest = path;
    'segments: loop {
        let (name, others) = cut_at_first(b'/', rest);
        if !is_good_name(name) {
            return false;
        }
        let Some(next) = others else {
            return true;
        };
        rest = next;
    }
}

/// Returns whether a path has more than `MAX_PATH` bytes.
pub fn is_too_long(path: &[u8]) -> bool
    ensures { result ≡ nat_lt max_path (length path.now) }
{
    path.len() > MAX_PATH
}

/// Returns the number of segments of a path. The empty path is the path of a tree's top directory, and has no segments.
///
/// ```
/// assert!(rt; depth_of(b"") == 0 && depth_of(b"a/b") == 2);
/// ```
pub fn depth_of(path: &[u8]) -> usize
    ensures { result ≡ depth_of path.now }
{
    if path.is_empty() {
        return 0;
    }
    let mut depth = 1;
    for b in path {
        depth += usize::from(*b == b'/');
    }
    depth
}

/// Returns whether a directory's path has more than `MAX_DEPTH` segments.
pub fn is_too_deep(path: &[u8]) -> bool
    ensures { result ≡ nat_lt max_depth (depth_of path.now) }
{
    depth_of(path) > MAX_DEPTH
}

/// Adds the name of an entry to the path of its directory. If an allocation fails, the path stays as it was.
///
/// ```
/// push_name(&mut path, b"main.c")?; // of `src`
/// assert!(rt; path == b"src/main.c");
/// ```
pub fn push_name(path: &mut Vec<u8>, name: &[u8]) -> Result<(), AllocError>
    ensures ok { OnOk result (path.new.items ≡ path_in path.old.items name.now) }
    ensures err { OnErr result (path.new.items ≡ path.old.items) }
{
    let len = path.len();
    path.reserve(name.len().saturating_add(1))?;
    if len > 0 {
        path.push(b'/')?;
    }
    path.extend_from_slice(name)?;
    Ok(())
}
