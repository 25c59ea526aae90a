//! The directories that hold files, and how their paths are cut after some names.

ghost use Rattle.std.specs.Prelude.{◌≡◌, ◌-◌, [], MatchOption, length, take};
ghost use Rattle.std.specs.List.{join_with_byte};
ghost use Rattle.lc_glob.specs.Bytes.{slash};
ghost use Rattle.lc_glob.specs.Path.{segments_of};
ghost use Rattle.lc_rows.specs.Directories.{after_name, directory_before, directory_of, first_names, level_of, name_of, names_in};
ghost use Rattle.lc_rows.specs.Directories.{own_part, parent_of};

use lc_glob::cut_at_first;
use memchr::memrchr;

/// Returns the directory whose path is `front`, which is what a path has before its last slash. An empty `front` is the directory `/`, and
/// `.` is the top directory, whose path is empty.
fn directory_before(front: &[u8]) -> &[u8]
    ensures { result.now ≡ directory_before front.now }
{
    if front.is_empty() {
        b"/"
    } else if front == b".".as_slice() {
        &front[..0]
    } else {
        front
    }
}

/// Splits the path of a file into its directory and its name. The directory is the empty path if the file is directly in the top directory.
pub(crate) fn split_path(path: &[u8]) -> (&[u8], &[u8])
    ensures parent { result.0.now ≡ parent_of path.now }
    ensures name { result.1.now ≡ name_of path.now }
{
    match memrchr(b'/', path) {
        None => (&path[..0], path),
        Some(place) => (directory_before(&path[..place]), &path[place + 1..]),
    }
}

/// Returns the last name of a path: what follows the last slash, or the whole path if it has no slash.
pub fn name_of(path: &[u8]) -> &[u8]
    ensures { result.now ≡ name_of path.now }
{
    split_path(path).1
}

/// Returns how many names a segment of a path counts as: none for the empty segment, `.` and `..`, and 1 for any other.
fn names_in(segment: &[u8]) -> usize
    ensures { result ≡ names_in segment.now }
{
    match segment {
        [] | [b'.'] | [b'.', b'.'] => 0,
        _ => 1,
    }
}

/// Returns what follows the slash after the first `number` names of a path, or `None` if no slash follows them.
fn after_name(number: usize, path: &[u8]) -> Option<&[u8]>
    ensures front { MatchOption result (first_names number path.now ≡ path.now)
        (λ rest. first_names number path.now ≡ take (length path.now - length rest.now - 1) path.now) }
    ensures rest { MatchOption result (after_name number (segments_of path.now) ≡ [])
        (λ rest. join_with_byte slash (after_name number (segments_of path.now)) ≡ rest.now) }
{
    let mut rest = path;
    let mut left = number;
    'segments: while left > 0 {
        let (segment, others) = cut_at_first(b'/', rest);
        match others {
            None => return None,
            Some(below) => rest = below,
        }
        left = left.saturating_sub(names_in(segment));
    }
    Some(rest)
}

/// Cuts a path after its first `number` names.
pub(crate) fn first_names(number: usize, path: &[u8]) -> &[u8]
    ensures { result.now ≡ first_names number path.now }
{
    match after_name(number, path) {
        None => path,
        Some(rest) => &path[..path.len().saturating_sub(rest.len()).saturating_sub(1)],
    }
}

/// Returns the directory of a file, cut after its first `number` names. It is the empty path if the file is directly in the top directory.
///
/// The empty segment, `.` and `..` do not count as names.
///
/// ```
/// assert!(rt; directory_at(1, b"src/view/main.rt") == b"src".as_slice());
/// assert!(rt; directory_at(1, b"../lib/a/b.c") == b"../lib".as_slice());
/// ```
pub fn directory_at(number: u32, path: &[u8]) -> &[u8]
    ensures { result.now ≡ directory_of number path.now }
{
    let (parent, _) = split_path(path);
    first_names(number as usize, parent)
}

/// Returns how many directories are above a directory in a tree. The top directory, whose path is empty, has none.
///
/// ```
/// assert!(rt; level_of(b"") == 0 && level_of(b"/usr") == 1 && level_of(b"../lib/a") == 2);
/// ```
pub fn level_of(directory: &[u8]) -> usize
    ensures { result ≡ level_of directory.now }
{
    if directory.is_empty() {
        return 0;
    }
    let mut level = 1;
    let mut rest = directory;
    'segments: loop {
        let (segment, others) = cut_at_first(b'/', rest);
        let Some(below) = others else {
            return level;
        };
        level += names_in(segment);
        rest = below;
    }
}

/// Returns the part of a directory's path that leads from the parent directory to the directory: the last segment. If segments that are no
/// names, such as `..`, come right before the last segment, they are included.
///
/// ```
/// assert!(rt; own_part(b"../lib/a") == b"a".as_slice() && own_part(b"../lib") == b"../lib".as_slice());
/// ```
pub fn own_part(directory: &[u8]) -> &[u8]
    ensures { result.now ≡ own_part directory.now }
{
    let above = level_of(directory).saturating_sub(1);
    after_name(above, directory).unwrap_or(&directory[..0])
}
