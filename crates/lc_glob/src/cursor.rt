//! How far the match of a segment has come: the tokens and the bytes that are still to be compared.

ghost use Rattle.lc_glob.specs.Steps.{RetryIs};

use crate::element::Element;
use crate::path_segment::PathSegment;

/// A place in a match: the tokens of a pattern's segment, and the rest of a path's segment that is still to be compared with them.
#[derive(Clone, Copy)]
pub(crate) struct Cursor<'p, 'n, E> {
    pub(crate) tokens: &'p [E],
    pub(crate) segment: PathSegment<'n>,
}

/// The result of comparing the last token with the last byte of the segment.
pub(crate) enum EndStep<'p, 'n, E> {
    /// The last token is a star.
    Star,
    /// The last token matches the last byte. This cursor has the tokens and the bytes before them.
    Taken(Cursor<'p, 'n, E>),
    /// The tokens fit the segment: no token and no byte is left, or the only token left is a star.
    Fitted,
    /// The tokens don't fit the segment.
    Stuck,
}

/// The result of comparing the first token with the first byte of the segment.
pub(crate) enum FrontStep<'p, 'n, E> {
    /// The first token is a star, and these tokens are after it.
    Star(&'p [E]),
    /// The first token matches the first byte. This cursor has the tokens and the bytes after them.
    Taken(Cursor<'p, 'n, E>),
    /// The tokens fit the segment from here: no token and no byte is left, or the only token left is a star.
    Fitted,
    /// The tokens don't fit the segment from here.
    Stuck,
}

impl<'p, 'n, E: Element> Cursor<'p, 'n, E> {
    /// Returns a cursor that gives one more byte to the star before the tokens, if a byte is left.
    pub(crate) fn retry(self) -> Option<Self>
        ensures { RetryIs self.entry result }
    {
        let segment = self.segment.skip_first()?;
        Some(Cursor {
            tokens: self.tokens,
            segment,
        })
    }
}
