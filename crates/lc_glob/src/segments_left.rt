//! Segments of a pattern, cut at separators, one by one from either end.

ghost use Rattle.std.specs.{Prelude.{◌≡◌, ◌↔◌, IsTrue, [], ◌∷◌, ◌++◌, MatchOption}, List.slice_split};
ghost use Rattle.lc_glob.specs.Pieces.{cuts_left};

use crate::element::Element;

/// The segments of a pattern that are still to be matched: none, or the segments of the elements in `rest`.
#[derive(Clone, Copy)]
pub(crate) struct SegmentsLeft<'a, E> {
    pub(crate) rest: Option<&'a [E]>,
}

impl<'a, E: Element> SegmentsLeft<'a, E> {
    /// Returns all segments of the elements.
    pub(crate) fn of(elements: &'a [E]) -> Self
        ensures { cuts_left E.separates result.rest ≡ slice_split E.separates elements.now }
    {
        SegmentsLeft {
            rest: Some(elements),
        }
    }

    /// Returns whether no segment is left.
    pub(crate) fn is_over(self) -> bool
        ensures { IsTrue result ↔ (cuts_left E.separates self.entry.rest ≡ []) }
    {
        match self.rest {
            None => true,
            Some(_) => false,
        }
    }

    /// Returns the first of the segments, and the others.
    pub(crate) fn split_first(self) -> Option<(&'a [E], SegmentsLeft<'a, E>)>
        ensures { MatchOption result (cuts_left E.separates self.entry.rest ≡ [])
            (λ p. cuts_left E.separates self.entry.rest ≡ p.0.now ∷ cuts_left E.separates p.1.rest) }
    {
        let (first, rest) = E::cut_at_first_separator(self.rest?);
        Some((first, SegmentsLeft { rest }))
    }

    /// Returns all segments but the last, and the last segment.
    pub(crate) fn split_last(self) -> Option<(SegmentsLeft<'a, E>, &'a [E])>
        ensures { MatchOption result (cuts_left E.separates self.entry.rest ≡ [])
            (λ p. cuts_left E.separates self.entry.rest ≡ cuts_left E.separates p.0.rest ++ p.1.now ∷ []) }
    {
        let (rest, last) = E::cut_at_last_separator(self.rest?);
        Some((SegmentsLeft { rest }, last))
    }
}
