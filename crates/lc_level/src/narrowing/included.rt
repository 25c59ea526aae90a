//! Which files the patterns of `--include` match.
ghost use Rattle.std.specs.Prelude.{◌≡◌, Some, option_map};
ghost use Rattle.lc_level.specs.Filters.{has_matched_parent, is_included, is_within, matches, patterns_for};

use lc_rules::IgnoreFile;

/// Returns whether one of the patterns matches a path.
fn matches(patterns: &IgnoreFile, path: &[u8], is_dir: bool) -> bool
    ensures { result ≡ matches patterns.now path.now is_dir }
{
    patterns.last_match(path, is_dir).is_some()
}

/// Returns whether a pattern matches a directory above a path, below the top.
fn has_matched_parent(patterns: &IgnoreFile, path: &[u8]) -> bool
    ensures { result ≡ has_matched_parent patterns.now path.now }
{
    for len in 0..path.len() {
        if path[len] == b'/' && matches(patterns, &path[..len], true) {
            return true;
        }
    }
    false
}

/// Returns whether a pattern matches the directory at a path, or one above it, below the top.
fn is_within(patterns: &IgnoreFile, directory: &[u8]) -> bool
    ensures { result ≡ is_within patterns.now directory.now }
{
    if directory.is_empty() {
        return false;
    }
    matches(patterns, directory, true) || has_matched_parent(patterns, directory)
}

/// Returns the patterns for the files of a directory: a file that matches none of them is skipped. Returns `None` if a pattern matches the
/// directory, or a directory above it and below the top of the tree: in this case the patterns include all files of the directory.
pub(crate) fn patterns_for<'p>(patterns: &'p IgnoreFile, directory: &[u8]) -> Option<&'p IgnoreFile>
    ensures { option_map (λ p. p.now) result ≡ patterns_for (Some patterns.entry.now) directory.now }
{
    if is_within(patterns, directory) {
        return None;
    }
    Some(patterns)
}

/// Returns whether a file matches one of the patterns. If there are no patterns, returns true.
pub(crate) fn is_included(patterns: Option<&IgnoreFile>, path: &[u8]) -> bool
    ensures { result ≡ is_included (option_map (λ p. p.now) patterns.entry) path.now }
{
    match patterns {
        Some(patterns) => matches(patterns, path, false),
        None => true,
    }
}
