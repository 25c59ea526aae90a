//! Segments of a path, whose bytes other modules cannot read. To compare a byte with a token, other modules call a byte test, and each byte
//! test is counted.
//!
//! Other modules get a path as `PathSegment`s, `PathLeft`s and `PathNames`. This module also reads bytes to find slashes, and does not
//! count these reads.

ghost use Rattle.std.specs.Prelude.{◌≡◌, ◌↔◌, ◌==◌, ◌<◌, ◌∷◌, ◌++◌, [], nat_le, nat_lt, IsTrue, MatchOption, length, bytes_eq, nat_eq};
ghost use Rattle.std.specs.{Prelude.slice_index_or, List.ends_with};
ghost use Rattle.lc_glob.specs.{Above.names_of, ByteTests.{tests_after, tests_if, SkipsFirst, StripsFirst, StripsLast}};
ghost use Rattle.lc_glob.specs.{Path.{segments_of, segments_left}, Views.token_ref_model};

use crate::element::Element;
use crate::token::TokenRef;

/// The number of byte tests: how often a token of a pattern was compared with one byte of a path. It stops at the greatest `u64`.
#[derive(Drop)]
pub(crate) struct ByteTests {
    made: u64,
}

impl ByteTests {
    pub(crate) fn none() -> Self
        ensures { result.made ≡ 0 }
    {
        ByteTests { made: 0 }
    }

    fn add(&mut self, count: usize)
        ensures { self.new.made ≡ tests_after self.old.made count }
    {
        self.made = self.made.saturating_add(count as u64);
    }

    /// Adds tests that another `ByteTests` counted. A loop with its own `ByteTests` need not keep its count in memory.
    pub(crate) fn add_all(&mut self, more: ByteTests)
        ensures { self.new.made ≡ tests_after self.old.made more.made }
    {
        self.made = self.made.saturating_add(more.made);
    }

    pub(crate) fn made(&self) -> u64
        ensures { result ≡ self.now.made }
    {
        self.made
    }
}

/// A segment of a path, the rest of a segment, or a whole path with its slashes. Its bytes are compared only in byte tests, which are
/// counted.
#[derive(Clone, Copy)]
pub(crate) struct PathSegment<'a> {
    bytes: &'a [u8],
}

impl<'a> PathSegment<'a> {
    pub(crate) fn new(bytes: &'a [u8]) -> Self
        ensures { result.bytes.now ≡ bytes.now }
    {
        PathSegment { bytes }
    }

    pub(crate) fn is_empty(self) -> bool
        ensures { IsTrue result ↔ (length self.entry.bytes.now ≡ 0) }
    {
        self.bytes.is_empty()
    }

    pub(crate) fn len(self) -> usize
        ensures { result ≡ length self.entry.bytes.now }
    {
        self.bytes.len()
    }

    /// Returns the segment without its first byte, which is not read.
    pub(crate) fn skip_first(self) -> Option<Self>
        ensures { SkipsFirst self.entry.bytes.now result }
    {
        let (_, bytes) = self.bytes.split_first()?;
        Some(PathSegment { bytes })
    }

    /// Returns the segment without its first byte, if the token is not a star and matches that byte.
    pub(crate) fn strip_first(self, token: TokenRef, tests: &mut ByteTests) -> Option<Self>
        ensures strips { StripsFirst (token_ref_model token.entry) self.entry.bytes.now result }
        ensures counted { tests.new.made ≡ tests_if (nat_lt 0 (length self.entry.bytes.now)) tests.old.made 1 }
    {
        let (b, bytes) = self.bytes.split_first()?;
        tests.add(1);
        if token.takes(*b) {
            Some(PathSegment { bytes })
        } else {
            None
        }
    }

    /// Returns the segment without its last byte, if the token is not a star and matches that byte.
    pub(crate) fn strip_last(self, token: TokenRef, tests: &mut ByteTests) -> Option<Self>
        ensures strips { StripsLast (token_ref_model token.entry) self.entry.bytes.now result }
        ensures counted { tests.new.made ≡ tests_if (nat_lt 0 (length self.entry.bytes.now)) tests.old.made 1 }
    {
        let (b, bytes) = self.bytes.split_last()?;
        tests.add(1);
        if token.takes(*b) {
            Some(PathSegment { bytes })
        } else {
            None
        }
    }

    /// Returns whether the segment equals these literals. If both have the same length, it counts a byte test for each literal.
    #[inline]
    pub(crate) fn is(self, literals: &[u8], tests: &mut ByteTests) -> bool
        ensures same { result ≡ bytes_eq self.entry.bytes.now literals.now }
        ensures counted { tests.new.made ≡ tests_if (length self.entry.bytes.now == length literals.now) tests.old.made
            (length literals.now) }
    {
        self.bytes.len() == literals.len() && self.is_all(literals, tests)
    }

    /// Like `is`, but always counts a test for each literal.
    #[inline(never)]
    fn is_all(self, literals: &[u8], tests: &mut ByteTests) -> bool
        ensures same { result ≡ bytes_eq self.entry.bytes.now literals.now }
        ensures counted { tests.new.made ≡ tests_after tests.old.made (length literals.now) }
    {
        tests.add(literals.len());
        self.bytes == literals
    }

    /// Returns whether the segment ends with these literals. If the segment is long enough, it counts a byte test for each literal.
    #[inline]
    pub(crate) fn ends_with(self, literals: &[u8], tests: &mut ByteTests) -> bool
        ensures ends { result ≡ ends_with nat_eq self.entry.bytes.now literals.now }
        ensures counted { tests.new.made ≡ tests_if (nat_le (length literals.now) (length self.entry.bytes.now)) tests.old.made
            (length literals.now) }
    {
        literals.len() <= self.bytes.len() && self.ends_with_all(literals, tests)
    }

    /// Like `ends_with`, but always counts a test for each literal.
    #[inline(never)]
    fn ends_with_all(self, literals: &[u8], tests: &mut ByteTests) -> bool
        ensures ends { result ≡ ends_with nat_eq self.entry.bytes.now literals.now }
        ensures counted { tests.new.made ≡ tests_after tests.old.made (length literals.now) }
    {
        tests.add(literals.len());
        self.bytes.ends_with(literals)
    }
}

/// The segments of a path that are still to be matched: none, or the segments of the bytes in `rest`. These segments are found one by one
/// from either end.
#[derive(Clone, Copy)]
pub(crate) struct PathLeft<'a> {
    rest: Option<&'a [u8]>,
}

impl<'a> PathLeft<'a> {
    /// Splits a path into the segments above its last segment, and the last segment.
    pub(crate) fn split_path(path: PathSegment<'a>) -> (Self, PathSegment<'a>)
        ensures { segments_of path.entry.bytes.now ≡ segments_left result.0.rest ++ result.1.bytes.now ∷ [] }
    {
        let (rest, last) = u8::cut_at_last_separator(path.bytes);
        (PathLeft { rest }, PathSegment { bytes: last })
    }

    /// Returns whether no segment is left.
    pub(crate) fn is_over(self) -> bool
        ensures { IsTrue result ↔ (segments_left self.entry.rest ≡ []) }
    {
        match self.rest {
            None => true,
            Some(_) => false,
        }
    }

    /// Returns the first of the segments, and the others.
    pub(crate) fn split_first(self) -> Option<(PathSegment<'a>, Self)>
        ensures { MatchOption result (segments_left self.entry.rest ≡ [])
            (λ p. segments_left self.entry.rest ≡ p.0.bytes.now ∷ segments_left p.1.rest) }
    {
        let (first, rest) = u8::cut_at_first_separator(self.rest?);
        Some((PathSegment { bytes: first }, PathLeft { rest }))
    }

    /// Returns all segments but the last, and the last segment.
    pub(crate) fn split_last(self) -> Option<(Self, PathSegment<'a>)>
        ensures { MatchOption result (segments_left self.entry.rest ≡ [])
            (λ p. segments_left self.entry.rest ≡ segments_left p.0.rest ++ p.1.bytes.now ∷ []) }
    {
        let (rest, last) = u8::cut_at_last_separator(self.rest?);
        Some((PathLeft { rest }, PathSegment { bytes: last }))
    }
}

/// The names in the path of a directory, from the top down. Each name is one segment.
#[derive(Clone, Copy)]
pub(crate) struct PathNames<'a> {
    names: &'a [&'a [u8]],
}

impl<'a> PathNames<'a> {
    pub(crate) fn new(names: &'a [&'a [u8]]) -> Self
        ensures { result.names.now ≡ names.now }
    {
        PathNames { names }
    }

    /// Returns the name at an index, as a segment.
    pub(crate) fn at(self, place: usize) -> PathSegment<'a>
        requires { place < length self.names.now }
        ensures { result.bytes.now ≡ slice_index_or (names_of self.entry.names.now) place [] }
    {
        PathSegment {
            bytes: self.names[place],
        }
    }
}
