//! A byte test that rejects most paths that a pattern doesn't match. If the last token of the pattern is a literal, the test compares this
//! literal with the last byte of the path. Otherwise, if the first token is a literal, the test compares this literal with the first byte
//! of the path, or of the path's last segment if the pattern is matched with that segment alone.
//!
//! `Pattern::matches_counted` counts this byte test too. The count stays within the bound of `matches_counted`, since the rest of the match
//! makes fewer byte tests than the bound.

ghost use Rattle.std.specs.Prelude.{◌≡◌, ◌≤◌, ◌+◌, ◌⊎◌, IsFalse};
ghost use Rattle.lc_glob.specs.EndLooks.{DiffersAtEnd, HasLiteralEnd};

use crate::element::Element;
use crate::path_segment::{ByteTests, PathSegment};
use crate::token::TokenRef;

/// Returns false if a byte test fails, and otherwise true. If the last element is a literal, the function compares it with the last byte of
/// `last`. Otherwise, if the first element is a literal, the function compares it with the first byte of `first`.
#[inline]
pub(crate) fn agrees_at_end<E: Element>(
    elements: &[E],
    first: PathSegment,
    last: PathSegment,
    tests: &mut ByteTests,
) -> bool
    ensures told { IsFalse result
        → DiffersAtEnd E.tokens_in E.separates elements.now first.entry.bytes.now last.entry.bytes.now }
    ensures cost { (tests.new.made ≡ tests.old.made)
        ⊎ (HasLiteralEnd E.tokens_in E.separates elements.now × (tests.new.made ≤ tests.old.made + 1)) }
{
    if let Some(b) = E::last_literal(elements) {
        return last.strip_last(TokenRef::Literal(b), tests).is_some();
    }
    if let Some(b) = E::first_literal(elements) {
        return first.strip_first(TokenRef::Literal(b), tests).is_some();
    }
    true
}
