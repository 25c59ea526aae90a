//! Lines that name paths.

ghost use Rattle.std.specs.Prelude.{◌≡◌};
ghost use Rattle.lc_text.specs.PathLines.{is_dir_line, path_of, is_bad_path, after_dot, or_dot, undotted, is_top};

use lc_glob::path::{is_good_path, is_too_long};

/// Returns `tail` without the slashes and the `./` at its beginning. `tail` is what follows the first `./` of a line.
fn after_dot(tail: &[u8]) -> &[u8]
    ensures { result.now ≡ after_dot tail.now }
{
    let mut rest = tail;
    'dots: loop {
        rest = match rest {
            [b'/', others @ ..] => others,
            [b'.', b'/', others @ ..] => others,
            _ => return rest,
        };
    }
}

/// Returns a path, or `.` for an empty one.
fn or_dot(path: &[u8]) -> &[u8]
    ensures { result.now ≡ or_dot path.now }
{
    match path {
        [] => b".",
        [_, ..] => path,
    }
}

/// Drops each `./` at the beginning of a line, with all slashes after it, and returns the rest of the line. If nothing follows a `./`,
/// returns `.`.
///
/// ```
/// assert!(rt; undotted(b".//./src/") == b"src/".as_slice() && undotted(b"./") == b".".as_slice());
/// ```
pub fn undotted(line: &[u8]) -> &[u8]
    ensures { result.now ≡ undotted line.now }
{
    let [b'.', b'/', others @ ..] = line else {
        return line;
    };
    or_dot(after_dot(others))
}

/// Returns whether a path is `.`, which names the top directory of a tree.
pub fn is_top(path: &[u8]) -> bool
    ensures { result ≡ is_top path.now }
{
    matches!(path, [b'.'])
}

/// Returns the path of a line without the slash at its end, and whether the line has this slash. The slash shows that the line names a
/// directory.
pub fn split_slash(line: &[u8]) -> (&[u8], bool)
    ensures path { result.0.now ≡ path_of line.now }
    ensures dir { result.1 ≡ is_dir_line line.now }
{
    match line.strip_suffix(b"/") {
        Some(path) => (path, true),
        None => (line, false),
    }
}

/// Returns whether a path is bad: it has over 4,096 bytes, or no entry of a tree can have it.
pub fn is_bad_path(path: &[u8]) -> bool
    ensures { result ≡ is_bad_path path.now }
{
    is_too_long(path) || !is_good_path(path)
}
