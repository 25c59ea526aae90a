//! Testing whether a path is below another path, and making a path relative to a directory above it.
ghost use Rattle.std.specs.Prelude.{◌≡◌, ◌∷◌, ◌++◌, [], None, option_map};
ghost use Rattle.std.specs.Ordering.{is_lt};
ghost use Rattle.lc_glob.specs.Bytes.{slash};
ghost use Rattle.lc_level.specs.Narrowing.{after, rest_from, stands_below};
ghost use Rattle.lc_tree.specs.ByteOrder.{bytes_cmp};

use crate::paths::relative_to;

/// Returns what follows `front` in a text, if the text begins with `front`.
fn after<'p>(front: &[u8], text: &'p [u8]) -> Option<&'p [u8]>
    ensures { option_map (λ rest. rest.now) result ≡ after front.now text.entry.now }
{
    text.strip_prefix(front)
}

/// Returns whether a path is below another: `a/b` is below `a`, and `ab` is not.
pub(crate) fn stands_below(path: &[u8], other: &[u8]) -> bool
    ensures { result ≡ stands_below path.now other.now }
{
    match after(other, path) {
        None => false,
        Some(rest) => after(b"/", rest).is_some(),
    }
}

/// Returns a path relative to a directory, if the path is below the directory and not the directory itself. For example, `a/b/c` relative
/// to `a/b` is `c`. The empty path is below no directory.
pub(crate) fn rest_from<'p>(directory: &[u8], path: &'p [u8]) -> Option<&'p [u8]>
    ensures { option_map (λ rest. rest.now) result ≡ rest_from directory.now path.entry.now }
{
    if path.is_empty() {
        return None;
    }
    relative_to(directory, path)
}

/// Returns whether a path sorts before every path below `other`, by their bytes. If `other` is `a`, then `a`, `a-b` and `a.b` do, and `a/b`
/// and `ab` do not.
pub(crate) fn is_before_below(path: &[u8], other: &[u8]) -> bool
    ensures { result ≡ is_lt (bytes_cmp path.now (other.now ++ slash ∷ [])) }
{
    match after(other, path) {
        None => path.cmp(other).is_lt(),
        Some(rest) => rest.cmp(b"/".as_slice()).is_lt(),
    }
}
