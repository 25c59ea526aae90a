//! Borrowed segments of a pattern, in the forms in which they are matched.

ghost use Rattle.std.specs.{Prelude.{◌≡◌, ◌∷◌, ◌++◌, [], MatchOption, true, ◌↔◌, IsTrue}, List.list_any};
ghost use Rattle.lc_glob.specs.{Above.{is_double, is_wide}, TokenLists.tokens_model, Reading.segment_from};
ghost use Rattle.lc_glob.specs.{Simple.{bytes_segment, ends_segment}, Tokens.is_star};
ghost use Rattle.lc_glob.specs.Views.{tokens_ref_model, segment_ref_model, segments_ref_model};

use crate::element::{are_two_stars, has_star};
use crate::segments_left::SegmentsLeft;
use crate::token::Token;

/// The tokens of a pattern's segment, in the form in which they are matched.
#[derive(Clone, Copy)]
pub(crate) enum TokensRef<'p> {
    /// Literals alone.
    Literal(&'p [u8]),
    /// A star and then literals alone.
    Suffix(&'p [u8]),
    /// Any tokens of a simple pattern's segment, as the bytes of the segment.
    Bytes(&'p [u8]),
    /// The tokens of a pattern that isn't simple.
    Tokens(&'p [Token]),
}

impl<'p> TokensRef<'p> {
    fn has_star(self) -> bool
        ensures { result ≡ list_any is_star (tokens_ref_model self.entry) }
    {
        match self {
            TokensRef::Literal(_) => false,
            TokensRef::Suffix(_) => true,
            TokensRef::Bytes(bytes) => has_star(bytes),
            TokensRef::Tokens(tokens) => has_star(tokens),
        }
    }
}

/// A segment of a pattern.
#[derive(Clone, Copy)]
pub(crate) enum SegmentRef<'p> {
    /// Tokens that one segment of a path must fit.
    Plain(TokensRef<'p>),
    /// `**`: any run of a path's segments.
    DoubleStar,
}

impl<'p> SegmentRef<'p> {
    /// Returns the segment of the bytes between two separators of a simple pattern.
    #[inline(always)]
    fn of_bytes(bytes: &'p [u8]) -> Self
        ensures { segment_ref_model result ≡ bytes_segment bytes.now }
    {
        match bytes {
            [b'*', b'*'] => SegmentRef::DoubleStar,
            // Any name fits it, and an empty suffix shows that at once.
            [b'*'] => SegmentRef::Plain(TokensRef::Suffix(&[])),
            _ => SegmentRef::Plain(TokensRef::Bytes(bytes)),
        }
    }

    /// Returns the segment of the tokens between two separators.
    #[inline(always)]
    fn of_tokens(tokens: &'p [Token]) -> Self
        ensures { segment_ref_model result ≡ segment_from true (tokens_model tokens.now) }
    {
        if are_two_stars(tokens) {
            SegmentRef::DoubleStar
        } else {
            SegmentRef::Plain(TokensRef::Tokens(tokens))
        }
    }

    /// Returns the segment of bytes that are a double star, or literals alone, or a star and then literals.
    #[inline(always)]
    fn of_end(bytes: &'p [u8]) -> Self
        ensures { segment_ref_model result ≡ ends_segment bytes.now }
    {
        match bytes {
            [b'*', b'*'] => SegmentRef::DoubleStar,
            [b'*', literals @ ..] => SegmentRef::Plain(TokensRef::Suffix(literals)),
            _ => SegmentRef::Plain(TokensRef::Literal(bytes)),
        }
    }

    pub(crate) fn is_double(self) -> bool
        ensures { result ≡ is_double (segment_ref_model self.entry) }
    {
        matches!(self, SegmentRef::DoubleStar)
    }

    /// Returns whether the segment is a double star or has a star.
    pub(crate) fn is_wide(self) -> bool
        ensures { result ≡ is_wide (segment_ref_model self.entry) }
    {
        match self {
            SegmentRef::Plain(tokens) => tokens.has_star(),
            SegmentRef::DoubleStar => true,
        }
    }
}

/// The segments of a pattern that are still to be matched. A simple pattern (`simple_pattern`) is stored as bytes, most other patterns as
/// tokens.
#[derive(Clone, Copy)]
pub(crate) enum SegmentsRef<'p> {
    /// Segments of a simple pattern.
    Bytes(SegmentsLeft<'p, u8>),
    /// Segments of a simple pattern. Each segment is a double star, or literals alone, or a star and then literals.
    Ends(SegmentsLeft<'p, u8>),
    /// Segments of a simple pattern, each of literals alone.
    Exact(SegmentsLeft<'p, u8>),
    /// Segments of a pattern that isn't simple.
    Tokens(SegmentsLeft<'p, Token>),
}

impl<'p> SegmentsRef<'p> {
    /// Returns whether no segment is left.
    pub(crate) fn is_empty(self) -> bool
        ensures { IsTrue result ↔ (segments_ref_model self.entry ≡ []) }
    {
        match self {
            SegmentsRef::Bytes(left) => left.is_over(),
            SegmentsRef::Ends(left) => left.is_over(),
            SegmentsRef::Exact(left) => left.is_over(),
            SegmentsRef::Tokens(left) => left.is_over(),
        }
    }

    /// Returns the first segment, and the others.
    pub(crate) fn split_first(self) -> Option<(SegmentRef<'p>, SegmentsRef<'p>)>
        ensures { MatchOption result (segments_ref_model self.entry ≡ [])
            (λ p. segments_ref_model self.entry ≡ segment_ref_model p.0 ∷ segments_ref_model p.1) }
    {
        match self {
            SegmentsRef::Bytes(left) => {
                let (bytes, others) = left.split_first()?;
                Some((SegmentRef::of_bytes(bytes), SegmentsRef::Bytes(others)))
            }
            SegmentsRef::Ends(left) => {
                let (bytes, others) = left.split_first()?;
                Some((SegmentRef::of_end(bytes), SegmentsRef::Ends(others)))
            }
            SegmentsRef::Exact(left) => {
                let (bytes, others) = left.split_first()?;
                let segment = SegmentRef::Plain(TokensRef::Literal(bytes));
                Some((segment, SegmentsRef::Exact(others)))
            }
            SegmentsRef::Tokens(left) => {
                let (tokens, others) = left.split_first()?;
                Some((SegmentRef::of_tokens(tokens), SegmentsRef::Tokens(others)))
            }
        }
    }

    /// Returns the last segment, and the others.
    #[inline(always)]
    pub(crate) fn split_last(self) -> Option<(SegmentRef<'p>, SegmentsRef<'p>)>
        ensures { MatchOption result (segments_ref_model self.entry ≡ [])
            (λ p. segments_ref_model self.entry ≡ segments_ref_model p.1 ++ segment_ref_model p.0 ∷ []) }
    {
        match self {
            SegmentsRef::Bytes(left) => {
                let (others, bytes) = left.split_last()?;
                Some((SegmentRef::of_bytes(bytes), SegmentsRef::Bytes(others)))
            }
            SegmentsRef::Ends(left) => {
                let (others, bytes) = left.split_last()?;
                Some((SegmentRef::of_end(bytes), SegmentsRef::Ends(others)))
            }
            SegmentsRef::Exact(left) => {
                let (others, bytes) = left.split_last()?;
                let segment = SegmentRef::Plain(TokensRef::Literal(bytes));
                Some((segment, SegmentsRef::Exact(others)))
            }
            SegmentsRef::Tokens(left) => {
                let (others, tokens) = left.split_last()?;
                Some((SegmentRef::of_tokens(tokens), SegmentsRef::Tokens(others)))
            }
        }
    }
}
