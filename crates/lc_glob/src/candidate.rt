//! A path that is matched with patterns.

ghost use Rattle.std.specs.Prelude.{◌≡◌, ◌==◌, length, bytes_eq};
ghost use Rattle.lc_glob.specs.ByteTests.{tests_if};

use crate::lengths::Lengths;
use crate::path_segment::{ByteTests, PathLeft, PathSegment};
use std::marker::Model;

/// The least number of bytes of a path whose segments are measured. For a shorter path, comparing the segments costs less than measuring
/// them.
const LONG_PATH: usize = 256;

/// The least number of patterns for which the segments of a path are measured. Matching fewer patterns costs less than measuring.
const MANY_PATTERNS: usize = 64;

/// A path that is matched with many patterns. The last slash of the path is found once for all patterns.
///
/// Making a candidate searches for the last slash, from the end of the path. `for_patterns` may also measure the path's segments, in one
/// pass over the path. Nothing is allocated.
///
/// ```
/// let candidate = Candidate::new(b"src/main.c");
/// patterns.iter().rev().find(|pattern| pattern.matches_candidate(&candidate, false))
/// ```
#[derive(Drop)]
pub struct Candidate<'a> {
    /// The whole path, with its slashes.
    whole: PathSegment<'a>,
    pub(crate) above: PathLeft<'a>,
    pub(crate) last: PathSegment<'a>,
    /// Bounds of the lengths of the segments above the last segment.
    pub(crate) lengths: Lengths,
}

impl<'a> Model for Candidate<'a> {
    ghost use Rattle.std.specs.Prelude.{◌≡◌, ℕ, List, [], ◌∷◌, ◌++◌};
    ghost use Rattle.lc_glob.specs.{Lengths.AreBetween, Path.{segments_of, segments_left}};

    ghost Value = { List ℕ };

    ghost view = { λ c. c.whole.bytes.now };

    ghost invariant = { λ c. (segments_of c.whole.bytes.now ≡ segments_left c.above.rest ++ c.last.bytes.now ∷ [])
        × AreBetween c.lengths (segments_left c.above.rest) };
}

impl<'a> Candidate<'a> {
    /// Makes the candidate of a path. The path should have single slashes between its segments, and no slash at its ends.
    pub fn new(path: &'a [u8]) -> Self
        ensures { result ≡ path.now }
    {
        Self::measured_from(path, usize::MAX)
    }

    /// Makes the candidate of a path that is matched with `patterns` patterns. If there are many patterns and the path is long, measures
    /// the segments before the last segment. The lengths of the shortest and the longest of them can show that a pattern does not match,
    /// without comparing a byte of the path.
    pub fn for_patterns(path: &'a [u8], patterns: usize) -> Self
        ensures { result ≡ path.now }
    {
        if patterns < MANY_PATTERNS {
            Self::new(path)
        } else {
            Self::measured(path)
        }
    }

    /// Makes the candidate of a path. The lengths of the segments are measured if the path has at least `LONG_PATH` bytes.
    pub(crate) fn measured(path: &'a [u8]) -> Self
        ensures { result ≡ path.now }
    {
        Self::measured_from(path, LONG_PATH)
    }

    /// Makes the candidate of a path. The lengths of the segments are measured if the path has at least `long` bytes.
    fn measured_from(path: &'a [u8], long: usize) -> Self
        ensures { result ≡ path.now }
    {
        let whole = PathSegment::new(path);
        let (above, last) = PathLeft::split_path(whole);
        let lengths = if path.len() < long {
            Lengths::unknown()
        } else {
            Lengths::of(above)
        };
        Candidate {
            whole,
            above,
            last,
            lengths,
        }
    }

    /// Returns the whole path, with its slashes.
    #[inline]
    pub(crate) fn whole(&self) -> PathSegment<'a>
        ensures { result.bytes.now ≡ self.now }
    {
        self.whole
    }

    /// Returns whether the path equals these bytes. If both have the same length, it counts a byte test for each byte.
    #[inline]
    pub(crate) fn is(&self, bytes: &[u8], tests: &mut ByteTests) -> bool
        ensures same { result ≡ bytes_eq self.now bytes.now }
        ensures counted { tests.new.made ≡ tests_if (length self.now == length bytes.now) tests.old.made (length bytes.now) }
    {
        self.whole().is(bytes, tests)
    }
}
