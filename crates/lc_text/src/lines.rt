//! Splitting an input into its paths, one after another.

ghost use Rattle.std.specs.Prelude.{◌≡◌, ◌<◌, ◌∷◌, length};
ghost use Rattle.lc_text.specs.Lines.{end_byte, input_paths_of};

use lc_glob::cut_at_first;

/// The byte that ends each path of an input.
#[derive(Debug, Clone, Copy, PartialEq, Eq)]
pub enum PathEnd {
    /// A line feed: each line is a path.
    LineFeed,
    /// A NUL byte, so that a path may have a line feed.
    Nul,
}

fn end_byte(end: PathEnd) -> u8
    ensures { result ≡ end_byte end }
{
    match end {
        PathEnd::LineFeed => b'\n',
        PathEnd::Nul => b'\0',
    }
}

/// Splits bytes into the first path and what follows this path. The byte that ends the path is in neither part.
///
/// ```
/// assert!(rt; split_path(PathEnd::Nul, b"a\nb\0c") == (b"a\nb".as_slice(), b"c".as_slice()));
/// ```
pub fn split_path(end: PathEnd, bytes: &[u8]) -> (&[u8], &[u8])
    requires { 0 < length bytes.now }
    ensures paths { input_paths_of end bytes.now ≡ result.0.now ∷ input_paths_of end result.1.now }
    ensures less { length result.1.now < length bytes.now }
{
    let (path, others) = cut_at_first(end_byte(end), bytes);
    match others {
        None => (path, &[]),
        Some(rest) => (path, rest),
    }
}
