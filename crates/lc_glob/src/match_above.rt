//! Matching a pattern with all directories above a path, in one pass over the pattern's segments.
//!
//! Each name in the path has a flag. All flags are updated for each segment of the pattern, in order. Until the last segment is reached,
//! the flag of a name shows whether the segments so far match the names before this name. At the end, the flag shows whether the pattern
//! matches the directory whose path ends with this name. So a segment is compared at most once with each name, however many double stars
//! precede the segment.

ghost use Rattle.std.specs.Prelude.{◌≡◌, ◌↔◌, ◌≤◌, ◌+◌, ◌*◌, IsTrue, false, length, take, slice_index_or, []};
ghost use Rattle.lc_glob.specs.{Above.{names_of, IsSet, AreSet, Before, UpTo, has_nested_after}, Costs.{bytes_with_ends, full_cost}};
ghost use Rattle.lc_glob.specs.{Fits.Fits, Leads.Leads, Matches.MatchesPath, Views.{segments_ref_model, tokens_ref_model}};

use crate::match_segment::fits;
use crate::path_segment::{ByteTests, PathNames, PathSegment};
use crate::segment_ref::{SegmentRef, SegmentsRef, TokensRef};

/// Sets the flag of each name to whether the segments match the directory whose path ends with this name.
pub(crate) fn match_above(
    segments: SegmentsRef,
    names: PathNames,
    flags: &mut [bool],
    tests: &mut ByteTests,
)
    requires { length names.names.now ≡ length flags.old }
    ensures len { length flags.new ≡ length flags.old }
    ensures cost { tests.new.made ≤ tests.old.made + full_cost (segments_ref_model segments.entry) (names_of names.entry.names.now) }
    ensures set { AreSet flags.new (λ k. MatchesPath (segments_ref_model segments.entry) (take (k + 1) (names_of names.entry.names.now))) }
{
    let Some((last, front)) = segments.split_last() else {
        flags.fill(false);
        return;
    };
    lead_above(front, names, flags, tests);
    match last {
        // It gives at least the name itself.
        SegmentRef::DoubleStar => spread(flags),
        SegmentRef::Plain(tokens) => keep(flags, names, tokens, tests),
    }
}

/// Sets the flag of each name to whether the segments match the path above this name. A last double star may here match no segment.
fn lead_above(segments: SegmentsRef, names: PathNames, flags: &mut [bool], tests: &mut ByteTests)
    requires { length names.names.now ≡ length flags.old }
    ensures len { length flags.new ≡ length flags.old }
    ensures cost { tests.new.made ≤ tests.old.made + full_cost (segments_ref_model segments.entry) (names_of names.entry.names.now) }
    ensures set { AreSet flags.new (λ k. Leads (segments_ref_model segments.entry) (take k (names_of names.entry.names.now))) }
{
    flag_first(flags);
    let mut rest = segments;
    'segments: while let Some((segment, others)) = rest.split_first() {
        match segment {
            SegmentRef::DoubleStar => spread(flags),
            SegmentRef::Plain(tokens) => {
                keep(flags, names, tokens, tests);
                shift(flags);
            }
        }
        rest = others;
    }
}

/// Sets the flag of the first name, and clears all others.
fn flag_first(flags: &mut [bool])
    ensures len { length flags.new ≡ length flags.old }
    ensures set { AreSet flags.new (λ k. k ≡ 0) }
{
    flags.fill(false);
    if !flags.is_empty() {
        flags[0] = true;
    }
}

/// Clears the flag of each name that the tokens do not fit. It compares each name at most once.
pub(crate) fn keep(flags: &mut [bool], names: PathNames, tokens: TokensRef, tests: &mut ByteTests)
    requires { length names.names.now ≡ length flags.old }
    ensures len { length flags.new ≡ length flags.old }
    ensures set { AreSet flags.new
        (λ k. IsSet flags.old k × Fits (tokens_ref_model tokens.entry) (slice_index_or (names_of names.entry.names.now) k [])) }
    ensures cost { tests.new.made ≤ tests.old.made
        + (length (tokens_ref_model tokens.entry) + 1) * bytes_with_ends (names_of names.entry.names.now) }
{
    for k in 0..flags.len() {
        flags[k] = keeps(flags[k], tokens, names.at(k), tests);
    }
}

/// Returns whether the flag of a name stays set: it was set, and the tokens fit the name.
#[inline]
fn keeps(is_set: bool, tokens: TokensRef, name: PathSegment, tests: &mut ByteTests) -> bool
    ensures kept { IsTrue result ↔ (IsTrue is_set × Fits (tokens_ref_model tokens.entry) name.entry.bytes.now) }
    ensures cost { tests.new.made ≤ tests.old.made + (length (tokens_ref_model tokens.entry) + 1) * (length name.entry.bytes.now + 1) }
{
    is_set && fits(tokens, name, tests)
}

/// Moves each flag to the next name. The first flag becomes false, and the last flag is lost.
fn shift(flags: &mut [bool])
    ensures len { length flags.new ≡ length flags.old }
    ensures set { AreSet flags.new (Before (IsSet flags.old)) }
{
    let mut before = false;
    for k in 0..flags.len() {
        let here = flags[k];
        flags[k] = before;
        before = here;
    }
}

/// Sets all flags after the first one that is set.
fn spread(flags: &mut [bool])
    ensures len { length flags.new ≡ length flags.old }
    ensures set { AreSet flags.new (UpTo (IsSet flags.old)) }
{
    let mut is_any = false;
    for k in 0..flags.len() {
        is_any = is_any || flags[k];
        flags[k] = is_any;
    }
}

/// Returns whether a double star comes after another double star, or after a segment with a star.
pub(crate) fn has_nested_wildcards(segments: SegmentsRef) -> bool
    ensures { result ≡ has_nested_after false (segments_ref_model segments.entry) }
{
    let mut is_wide = false;
    let mut rest = segments;
    'segments: while let Some((segment, others)) = rest.split_first() {
        if is_wide && segment.is_double() {
            return true;
        }
        is_wide = is_wide || segment.is_wide();
        rest = others;
    }
    false
}
