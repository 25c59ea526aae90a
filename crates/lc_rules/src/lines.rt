//! The lines of a file of rules.

ghost use Rattle.std.specs.Prelude.{◌≡◌, MatchOption, List, ℕ, ◌∷◌, []};
ghost use Rattle.lc_rules.specs.RuleLines.{without_mark, lines_of};

use lc_glob::cut_at_first;
use std::marker::Model;

/// The lines of a file of rules that are still to be read.
///
/// ```
/// let Some((line, others)) = Lines::of(b"*.log\n!keep.log\n").split_first() else { .. };
/// ```
#[derive(Drop)]
pub struct Lines<'a> {
    rest: Option<&'a [u8]>,
}

impl<'a> Model for Lines<'a> {
    ghost use Rattle.std.specs.Prelude.{ℕ, List};
    ghost use Rattle.lc_rules.specs.RuleLines.{lines_left};

    ghost Value = { List (List ℕ) };

    ghost view = { λ l. lines_left l.rest };
}

impl<'a> Lines<'a> {
    /// Returns the lines of a file, without its byte order mark.
    pub fn of(bytes: &'a [u8]) -> Self
        ensures { result ≡ lines_of bytes.now }
    {
        Lines {
            rest: Some(without_mark(bytes)),
        }
    }

    /// Returns the first line and the lines after it, or `None` if no line is left.
    pub fn split_first(self) -> Option<(&'a [u8], Lines<'a>)>
        ensures { MatchOption result (self.entry ≡ []) (λ p. self.entry ≡ p.0.now ∷ p.1) }
    {
        let (line, rest) = cut_at_first(b'\n', self.rest?);
        Some((line, Lines { rest }))
    }
}

/// Returns the bytes of a file without its byte order mark.
pub(crate) fn without_mark<'a>(bytes: &'a [u8]) -> &'a [u8]
    ensures { result.now ≡ without_mark bytes.now }
{
    match bytes {
        [0xEF, 0xBB, 0xBF, rest @ ..] => rest,
        _ => bytes,
    }
}
