//! The lengths of the shortest and the longest segment of a path. A pattern does not match the path if some segment of the pattern fits
//! only names that are shorter than the shortest segment of the path, or longer than the longest. No byte test is needed to see this.

ghost use Rattle.std.specs.{Prelude.{◌≡◌, ◌≤◌, ℕ, List, IsTrue, length}, List.All};
ghost use Rattle.lc_glob.specs.{Leads.Leads, Lengths.{AreBetween, FitsSome}, Path.segments_left, Patterns.plain};
ghost use Rattle.lc_glob.specs.Views.{segment_ref_model, segments_ref_model, tokens_ref_model};

use crate::element::{Element, has_star};
use crate::path_segment::PathLeft;
use crate::segment_ref::{SegmentRef, SegmentsRef, TokensRef};

/// Two bounds between which the lengths of a path's segments are, in bytes. For a path that was not measured, any length is between them.
#[derive(Clone, Copy)]
pub(crate) struct Lengths {
    shortest: usize,
    longest: usize,
}

impl Lengths {
    /// Returns the bounds for a path that was not measured, which allow any length.
    pub(crate) fn unknown() -> Self
        ensures { (names : List (List ℕ)) → All (λ name. length name ≤ usize.MAX) names → AreBetween result names }
    {
        Lengths {
            shortest: 0,
            longest: usize::MAX,
        }
    }

    /// Measures the segments of a path, in one pass over them.
    pub(crate) fn of(path: PathLeft) -> Self
        ensures { AreBetween result (segments_left path.entry.rest) }
    {
        let mut rest = path;
        let mut shortest = usize::MAX;
        let mut longest: usize = 0;
        'segments: while let Some((name, others)) = rest.split_first() {
            shortest = shortest.min(name.len());
            longest = longest.max(name.len());
            rest = others;
        }
        Lengths { shortest, longest }
    }

    /// Returns false only if the pattern's segments match no path whose segments have lengths within these bounds. It reads no byte of a
    /// path, and it tests no segment if the path was not measured.
    #[inline]
    pub(crate) fn allow(self, segments: SegmentsRef) -> bool
        ensures { (names : List (List ℕ)) → AreBetween self names → Leads (segments_ref_model segments.entry) names → IsTrue result }
    {
        self.longest == usize::MAX || self.allow_each(segments)
    }

    /// Like `allow`, but tests the pattern's segments even if the path was not measured.
    #[inline(never)]
    fn allow_each(self, segments: SegmentsRef) -> bool
        ensures { (names : List (List ℕ)) → AreBetween self names → Leads (segments_ref_model segments.entry) names → IsTrue result }
    {
        let mut rest = segments;
        'segments: while let Some((segment, others)) = rest.split_first() {
            if !self.allow_segment(segment) {
                return false;
            }
            rest = others;
        }
        true
    }

    /// Returns false only if the pattern's segment fits no name with a length within these bounds.
    fn allow_segment(self, segment: SegmentRef) -> bool
        ensures { FitsSome self (segment_ref_model segment.entry) → IsTrue result }
    {
        match segment {
            SegmentRef::Plain(tokens) => self.allow_tokens(tokens),
            SegmentRef::DoubleStar => true,
        }
    }

    /// Returns false only if the tokens fit no name with a length within these bounds.
    fn allow_tokens(self, tokens: TokensRef) -> bool
        ensures { FitsSome self (plain (tokens_ref_model tokens.entry)) → IsTrue result }
    {
        match tokens {
            TokensRef::Literal(literals) => self.has(literals.len()),
            TokensRef::Suffix(literals) => literals.len() <= self.longest,
            TokensRef::Bytes(bytes) => self.allow_elements(bytes),
            TokensRef::Tokens(tokens) => self.allow_elements(tokens),
        }
    }

    /// Returns false only if the tokens of these elements fit no name with a length within these bounds.
    fn allow_elements<E: Element>(self, elements: &[E]) -> bool
        ensures { FitsSome self (plain (E.tokens_in elements.now)) → IsTrue result }
    {
        let least = E::least_bytes(elements);
        if has_star(elements) {
            least <= self.longest
        } else {
            self.has(least)
        }
    }

    /// Returns whether a length is within these bounds.
    fn has(self, length: usize) -> bool
        ensures { self.shortest ≤ length → length ≤ self.longest → IsTrue result }
    {
        self.shortest <= length && length <= self.longest
    }
}
