//! Binary searches in sorted paths.
ghost use Rattle.std.specs.Prelude.{◌≡◌, ◌<◌, ◌||◌, length, map, bytes_eq};
ghost use Rattle.std.specs.List.{list_any};
ghost use Rattle.lc_level.specs.Narrowing.{stands_below};
ghost use Rattle.lc_level.specs.PathSteps.{is_cut_among};
ghost use Rattle.lc_tree.specs.ByteOrder.{AreInOrder};

use crate::narrowing::below::{is_before_below, stands_below};

/// Returns whether a path is among sorted paths.
pub(crate) fn is_among(paths: &[&[u8]], path: &[u8]) -> bool
    requires { AreInOrder (map (λ other. other.now) paths.now) }
    ensures { result ≡ list_any (bytes_eq path.now) (map (λ other. other.now) paths.now) }
{
    let at = paths.partition_point(|other| other.cmp(&path).is_lt());
    at < paths.len() && path == paths[at]
}

/// Returns whether one of sorted paths is below another path.
pub(crate) fn has_below(paths: &[&[u8]], other: &[u8]) -> bool
    requires { AreInOrder (map (λ path. path.now) paths.now) }
    ensures { result ≡ list_any (λ path. stands_below path other.now) (map (λ path. path.now) paths.now) }
{
    let at = paths.partition_point(|path| is_before_below(path, other));
    at < paths.len() && stands_below(paths[at], other)
}

/// Returns whether the byte at this index of a directory's path is a slash, and the path before the slash is one of these sorted paths.
fn is_cut_among(paths: &[&[u8]], directory: &[u8], at: usize) -> bool
    requires order { AreInOrder (map (λ path. path.now) paths.now) }
    requires within { at < length directory.now }
    ensures { result ≡ is_cut_among (map (λ path. path.now) paths.now) directory.now at }
{
    directory[at] == b'/' && is_among(paths, &directory[..at])
}

/// Returns whether a directory is one of these sorted paths, or is below one. Makes a binary search for each segment of the directory's
/// path.
pub(crate) fn is_within(paths: &[&[u8]], directory: &[u8]) -> bool
    requires { AreInOrder (map (λ path. path.now) paths.now) }
    ensures { result ≡ list_any (λ path. bytes_eq path directory.now || stands_below directory.now path)
        (map (λ path. path.now) paths.now) }
{
    for at in 0..directory.len() {
        if is_cut_among(paths, directory, at) {
            return true;
        }
    }
    is_among(paths, directory)
}
