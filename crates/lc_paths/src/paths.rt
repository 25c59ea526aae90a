//! The paths of an input or of arguments, one after another.

ghost use Rattle.std.specs.Prelude.{◌≡◌, ◌∷◌, [], MatchOption};
ghost use Rattle.lc_paths.specs.Paths.{paths_in};

use lc_text::{PathEnd, split_path};

/// Paths that are checked or explained one after another.
#[derive(Clone, Copy)]
pub(crate) enum Paths<'w, 'a> {
    /// The paths of an input, each ended as the `PathEnd` says.
    Input(PathEnd, &'a [u8]),
    /// Arguments, each of them a path.
    Words(&'w [&'a str]),
}

impl<'w, 'a> Paths<'w, 'a> {
    /// Splits off the first path, if there is one.
    pub(crate) fn split_first(self) -> Option<(&'a [u8], Paths<'w, 'a>)>
        ensures { MatchOption result (paths_in self.entry ≡ []) (λ split. paths_in self.entry ≡ split.0.now ∷ paths_in split.1) }
    {
        match self {
            Paths::Input(end, bytes) => {
                if bytes.is_empty() {
                    return None;
                }
                let (path, rest) = split_path(end, bytes);
                Some((path, Paths::Input(end, rest)))
            }
            Paths::Words(words) => {
                let (word, rest) = words.split_first()?;
                Some((word.as_bytes(), Paths::Words(rest)))
            }
        }
    }
}
