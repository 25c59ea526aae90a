//! Matching the tokens of a pattern's segment with a segment of a path, for each form of the tokens (`TokensRef`).

ghost use Rattle.std.specs.Prelude.{◌↔◌, ◌<◌, ◌+◌, ◌*◌, IsTrue, length};
ghost use Rattle.lc_glob.specs.{Fits.Fits, Simple.end_tokens, Views.tokens_ref_model};

use crate::cursor::Cursor;
use crate::element::Element;
use crate::path_segment::{ByteTests, PathSegment};
use crate::segment_ref::TokensRef;

/// Returns whether the tokens fit the segment.
#[inline]
pub(crate) fn fits(tokens: TokensRef, segment: PathSegment, tests: &mut ByteTests) -> bool
    ensures fits { IsTrue result ↔ Fits (tokens_ref_model tokens.entry) segment.entry.bytes.now }
    ensures cost { tests.new.made < tests.old.made + (length (tokens_ref_model tokens.entry) + 1) * (length segment.entry.bytes.now + 1) }
{
    match tokens {
        TokensRef::Literal(literals) => fits_end(literals, true, segment, tests),
        TokensRef::Suffix(literals) => fits_end(literals, false, segment, tests),
        TokensRef::Bytes(bytes) => fits_elements(bytes, segment, tests),
        TokensRef::Tokens(tokens) => fits_elements(tokens, segment, tests),
    }
}

/// Returns whether literals fit the segment: alone if `is_whole`, and otherwise after a star. One function for both costs less than a jump
/// to one of two.
#[inline]
pub(crate) fn fits_end(
    literals: &[u8],
    is_whole: bool,
    segment: PathSegment,
    tests: &mut ByteTests,
) -> bool
    ensures fits { IsTrue result ↔ Fits (end_tokens is_whole literals.now) segment.entry.bytes.now }
    ensures cost { tests.new.made
        < tests.old.made + (length (end_tokens is_whole literals.now) + 1) * (length segment.entry.bytes.now + 1) }
{
    if is_whole && segment.len() != literals.len() {
        return false;
    }
    segment.ends_with(literals, tests)
}

/// Returns whether tokens of any kind fit the segment.
#[inline(never)]
pub(crate) fn fits_elements<E: Element>(
    tokens: &[E],
    segment: PathSegment,
    tests: &mut ByteTests,
) -> bool
    ensures fits { IsTrue result ↔ Fits (E.tokens_in tokens.now) segment.entry.bytes.now }
    ensures cost { tests.new.made < tests.old.made + (length (E.tokens_in tokens.now) + 1) * (length segment.entry.bytes.now + 1) }
{
    let mut apart = ByteTests::none();
    let fits = Cursor { tokens, segment }.fits(&mut apart);
    tests.add_all(apart);
    fits
}
