//! Simple patterns, in which no byte is quoted and no byte opens a bracket. So each byte is a token or a separator, and a simple pattern is
//! stored and matched as bytes. Most patterns are simple.

ghost use Rattle.std.specs.Prelude.{◌≡◌, true, length, map, false, Bool, MatchOption, [], ◌∷◌, ◌≤◌, ◌<◌, ◌+◌, ◌-◌, ◌↔◌, IsTrue};
ghost use Rattle.std.specs.List.{list_all};
ghost use Rattle.lc_glob.specs.{Costs.{full_cost, match_cost}, Matches.{Matches, MatchesPath}, Path.segments_of, Patterns.plain};
ghost use Rattle.lc_glob.specs.Reading.{pattern_of};
ghost use Rattle.lc_glob.specs.Simple.{byte_token, bytes_segment, exact_segment, is_end, is_ends_segment, is_literal, is_simple};
ghost use Rattle.lc_glob.specs.{Views.{form_model, live_model, simple_model}, declared.simple_pattern.SimpleKind.TheVariants.Other};

use crate::candidate::Candidate;
use crate::element::are_two_stars;
use crate::end_look::agrees_at_end;
use crate::match_path::matches_path;
use crate::match_segment::{fits_elements, fits_end};
use crate::path_segment::ByteTests;
use crate::pattern_view::PatternView;
use crate::scope::trim;
use crate::segment_ref::SegmentsRef;
use crate::segments_left::SegmentsLeft;

/// How a simple pattern is matched.
#[derive(Clone, Copy)]
pub(crate) enum SimpleKind {
    /// If `is_whole` is true, the pattern is literals alone, such as `Makefile`, and the last segment of a path must equal them. If it is
    /// false, the pattern is a star and then literals, such as `*.o`, and the last segment must end with these literals.
    Suffix { is_whole: bool },
    /// The pattern is matched in another way. The other kinds have an enum of their own, since one test for the most usual kind costs less
    /// than a choice among all kinds.
    Other(RareKind),
}

/// How a simple pattern that is not a suffix is matched.
#[derive(Clone, Copy)]
pub(crate) enum RareKind {
    /// The pattern matches nothing: it is dead, such as `a//b`, which has an empty segment.
    Dead,
    /// Tokens of any kind, such as those of `core.*`, are matched with the last segment of a path.
    LastSegment,
    /// Literals alone, such as those of `/build` and `docs/out`, are compared with all segments of a path.
    Exact,
    /// All segments of a path are matched. Each segment of the pattern is a double star, or literals alone, or a star and then literals, as
    /// in `a/**/b` and `src/*.o`.
    Ends,
    /// Tokens of any kind, such as those of `src/core.*`, are matched with all segments of a path.
    WholePath,
}

/// What is stored of a simple pattern besides its bytes. It takes three bytes.
#[derive(Clone, Copy)]
pub(crate) struct SimpleForm {
    pub(crate) is_dir_only: bool,
    pub(crate) kind: SimpleKind,
}

/// A simple pattern: its form and its bytes. The bytes have no separators at their ends. The bytes of a `Suffix` do not include the star.
#[derive(Clone, Copy)]
pub(crate) struct SimplePattern<'p> {
    pub(crate) form: SimpleForm,
    pub(crate) bytes: &'p [u8],
}

impl<'p> SimplePattern<'p> {
    /// Reads bytes as a simple pattern, perhaps a dead one. It returns `None` if a byte is quoted or opens a bracket, and allocates
    /// nothing.
    pub(crate) fn read(bytes: &'p [u8]) -> Option<Self>
        ensures { MatchOption result (list_all is_simple bytes.now ≡ false) (λ p. form_model p.form p.bytes.now ≡ pattern_of bytes.now) }
    {
        if are_simple(bytes) {
            Some(Self::of_simple(bytes))
        } else {
            None
        }
    }

    fn of_simple(bytes: &'p [u8]) -> Self
        requires { list_all is_simple bytes.now ≡ true }
        ensures { form_model result.form result.bytes.now ≡ pattern_of bytes.now }
    {
        let Some((scope, segments)) = trim(bytes) else {
            return Self::new(false, SimpleKind::Other(RareKind::Dead), &[]);
        };
        if scope.is_anchored {
            return Self::new(scope.is_dir_only, path_kind(segments), segments);
        }
        let (kind, kept) = name_kind(segments);
        Self::new(scope.is_dir_only, kind, kept)
    }

    pub(crate) fn new(is_dir_only: bool, kind: SimpleKind, bytes: &'p [u8]) -> Self
        ensures { form_model result.form result.bytes.now ≡ simple_model is_dir_only kind bytes.now }
    {
        let form = SimpleForm { is_dir_only, kind };
        SimplePattern { form, bytes }
    }

    pub(crate) fn view(self) -> PatternView<'p>
        ensures { result ≡ form_model self.entry.form self.entry.bytes.now }
    {
        PatternView::of_simple(self.form.is_dir_only, self.form.kind, self.bytes)
    }

    /// Returns whether the pattern matches the path. The most usual kind is matched inline. To pass a pattern on in memory, or to make a
    /// view of it, would cost more than most matches.
    #[inline]
    pub(crate) fn matched(self, path: &Candidate, is_dir: bool, tests: &mut ByteTests) -> bool
        ensures meaning { IsTrue result ↔ Matches (form_model self.entry.form self.entry.bytes.now) path.now is_dir }
        ensures cost { tests.new.made
            ≤ tests.old.made + match_cost (form_model self.entry.form self.entry.bytes.now) path.now }
    {
        if self.form.is_dir_only && !is_dir {
            return false;
        }
        match self.form.kind {
            SimpleKind::Suffix { is_whole } => fits_end(self.bytes, is_whole, path.last, tests),
            SimpleKind::Other(other) => self.agrees(other, path, tests)
                && self.matched_by(other, path, tests),
        }
    }

    /// Returns whether the path passes at most one byte test. The result is false for most paths that the pattern does not match.
    #[inline]
    fn agrees(self, other: RareKind, path: &Candidate, tests: &mut ByteTests) -> bool
        ensures told { Matches (simple_model false (Other other) self.entry.bytes.now) path.now false → IsTrue result }
        ensures cost { tests.new.made + (match_cost (simple_model false (Other other) self.entry.bytes.now) path.now - 1)
            ≤ tests.old.made + match_cost (simple_model false (Other other) self.entry.bytes.now) path.now }
    {
        match other {
            RareKind::Dead => false,
            RareKind::LastSegment => agrees_at_end(self.bytes, path.last, path.last, tests),
            RareKind::Exact | RareKind::Ends | RareKind::WholePath => {
                agrees_at_end(self.bytes, path.whole(), path.last, tests)
            }
        }
    }

    /// Returns whether a pattern of this kind matches the path. The caller tests whether the pattern is for directories only.
    #[inline(never)]
    fn matched_by(self, other: RareKind, path: &Candidate, tests: &mut ByteTests) -> bool
        ensures meaning { IsTrue result ↔ Matches (simple_model false (Other other) self.entry.bytes.now) path.now false }
        ensures cost { tests.new.made
            ≤ tests.old.made + (match_cost (simple_model false (Other other) self.entry.bytes.now) path.now - 1) }
    {
        let bytes = self.bytes;
        match other {
            RareKind::Dead => false,
            RareKind::LastSegment => fits_elements(bytes, path.last, tests),
            RareKind::Exact => matches_exactly(bytes, path, tests),
            RareKind::Ends => {
                matches_path(SegmentsRef::Ends(SegmentsLeft::of(bytes)), path, tests)
            }
            RareKind::WholePath => {
                matches_path(SegmentsRef::Bytes(SegmentsLeft::of(bytes)), path, tests)
            }
        }
    }
}

/// Returns whether a pattern of literals alone matches the path: whether the path has the same bytes.
#[inline]
fn matches_exactly(bytes: &[u8], path: &Candidate, tests: &mut ByteTests) -> bool
    ensures same { IsTrue result ↔ MatchesPath (map exact_segment (segments_of bytes.now)) (segments_of path.now) }
    ensures cost { tests.new.made < tests.old.made + full_cost (map exact_segment (segments_of bytes.now)) (segments_of path.now) }
{
    path.is(bytes, tests)
}

/// Returns whether no byte of a pattern is quoted, and none opens a bracket.
fn are_simple(bytes: &[u8]) -> bool
    ensures { result ≡ list_all is_simple bytes.now }
{
    bytes.iter().all(|b| is_simple(*b))
}

fn is_simple(b: u8) -> bool
    ensures { result ≡ is_simple b }
{
    b != b'\\' && b != b'['
}

/// Returns whether each segment of a pattern is a double star, or literals alone, or a star and then literals.
fn has_ends(bytes: &[u8]) -> bool
    ensures { result ≡ list_all is_ends_segment (segments_of bytes.now) }
{
    let mut rest = SegmentsLeft::of(bytes);
    'segments: while let Some((segment, others)) = rest.split_first() {
        if !are_two_stars(segment) && !is_end(segment) {
            return false;
        }
        rest = others;
    }
    true
}

/// Returns whether bytes are literals alone, or a star and then literals.
fn is_end(bytes: &[u8]) -> bool
    ensures { result ≡ is_end bytes.now }
{
    match bytes {
        [b'*', literals @ ..] => are_literals(literals),
        _ => are_literals(bytes),
    }
}

/// Returns how the bytes of a pattern's segments are matched with a whole path.
fn path_kind(bytes: &[u8]) -> SimpleKind
    ensures { (is_dir_only : Bool) → simple_model is_dir_only result bytes.now
        ≡ live_model is_dir_only true (map bytes_segment (segments_of bytes.now)) }
{
    if are_literals(bytes) {
        SimpleKind::Other(RareKind::Exact)
    } else if has_ends(bytes) {
        SimpleKind::Other(RareKind::Ends)
    } else {
        SimpleKind::Other(RareKind::WholePath)
    }
}

/// Returns how the bytes of a pattern's one segment are matched with the last segment of a path, and which of the bytes this needs.
fn name_kind<'p>(bytes: &'p [u8]) -> (SimpleKind, &'p [u8])
    ensures { (is_dir_only : Bool) → simple_model is_dir_only result.0 result.1.now
        ≡ live_model is_dir_only false (plain (map byte_token bytes.now) ∷ []) }
{
    if are_literals(bytes) {
        return (SimpleKind::Suffix { is_whole: true }, bytes);
    }
    let Some((first, rest)) = bytes.split_first() else {
        return (SimpleKind::Other(RareKind::LastSegment), bytes);
    };
    if *first == b'*' && are_literals(rest) {
        (SimpleKind::Suffix { is_whole: false }, rest)
    } else {
        (SimpleKind::Other(RareKind::LastSegment), bytes)
    }
}

fn are_literals(bytes: &[u8]) -> bool
    ensures { result ≡ list_all is_literal bytes.now }
{
    bytes.iter().all(|b| is_literal(*b))
}

fn is_literal(b: u8) -> bool
    ensures { result ≡ is_literal b }
{
    b != b'*' && b != b'?'
}
