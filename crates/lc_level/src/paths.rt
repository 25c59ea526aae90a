//! Joining the path of a directory and the name of an entry, and making a path relative to a directory.
ghost use Rattle.std.specs.Prelude.{◌≡◌, ◌≢◌, ℕ, List, IfOk, MatchOption};
ghost use Rattle.lc_glob.specs.Path.{path_in};

use std::alloc::{AllocError, Global};

/// Returns the path of the entry `name` in a directory. `lc_glob::path::push_name` changes the directory's path in place instead.
pub fn path_in(alloc: Global, directory: &[u8], name: &[u8]) -> Result<Vec<u8>, AllocError>
    ensures { IfOk result (λ p. p.items ≡ path_in directory.now name.now) }
{
    let mut path = directory.to_vec(alloc)?;
    if !directory.is_empty() {
        path.push(b'/')?;
    }
    path.extend_from_slice(name)?;
    Ok(path)
}

/// Returns a path relative to a directory, or `None` if the path is not below the directory. For example, `a/b/c` relative to `a/b` is `c`.
/// An empty `directory` is the top of the tree. In this case the function returns the whole path.
///
/// ```
/// assert_eq!(relative_to(b"a/b", b"a/b/c"), Some(b"c"));
/// assert_eq!(relative_to(b"a", b"ab"), None);
/// ```
pub fn relative_to<'p>(directory: &[u8], path: &'p [u8]) -> Option<&'p [u8]>
    ensures { MatchOption result ((rest : List ℕ) → path.entry.now ≢ path_in directory.now rest)
        (λ rest. path.entry.now ≡ path_in directory.now rest.now) }
{
    if directory.is_empty() {
        return Some(path);
    }
    let Some(below) = path.strip_prefix(directory) else {
        return None;
    };
    below.strip_prefix(b"/")
}
