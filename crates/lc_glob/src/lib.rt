//! Patterns of ignore files, read and matched as gitignore(5), PATTERN FORMAT, says.
//!
//! `Pattern::read` reads the bytes of one pattern, and `Pattern::matches` matches the pattern with a path. A `PatternSet` keeps many
//! patterns and finds the last one that matches. Patterns and paths are bytes, and need not be UTF-8. Each byte is a character, and upper
//! case differs from lower case.
//!
//! | In a pattern | Matches |
//! |---|---|
//! | `*` | any bytes but slashes, also no byte |
//! | `?` | one byte, but not a slash |
//! | `[a-z]`, `[!a-z]`, `[[:digit:]]` | one byte of a set; after `!`, one byte that is neither in the set nor a slash |
//! | `\` and a byte | that byte |
//! | `/` | the end of a segment; a last `/` limits the pattern to directories; a pattern with a `/` elsewhere must match the whole path |
//! | `**` between separators | any run of segments, also an empty one; as the last segment, one segment or more |
//!
//! A pattern that can't be read is dead and matches nothing. Such a pattern ends in a backslash that escapes nothing, has a bracket without
//! its closing `]` or with an unknown class, or has an empty segment.
//!
//! A line of an ignore file may have more than a pattern, such as negation, a comment or trailing spaces. These are no part of the pattern.
//!
//! Reading allocates memory, and matching allocates none. `matches_counted` and `match_directories_counted` return the number of byte
//! tests, each of one byte of a path. This number is at most `(p + 1) * (q + 1)` for a pattern of `p` bytes and a path of `q` bytes.
//! The other calls match in the same way, but no contract bounds their tests.
//!
//! One byte test, of the last byte of a path or the first byte of a segment, rejects most paths that a pattern does not match (`end_look`).
//! The lengths of a long path's segments are measured once (`lengths`). A pattern with a segment that fits none of these lengths can be
//! rejected without a byte test.
//!
//! - `pattern`: a pattern, and matching it with a path
//! - `pattern_set`: a set of many patterns in order
//! - `candidate`: a path that is matched with many patterns
//! - `reading`: reading bytes as a pattern
//! - `bracket`, `byte_set`: reading a bracket, such as `[a-z]`, and the set of bytes that a bracket matches
//! - `token`: the tokens of a pattern
//! - `scope`: what the slashes of a pattern mean
//! - `simple_pattern`: patterns that are stored as bytes
//! - `token_pattern`: patterns that are stored as tokens
//! - `pattern_ref`: a borrowed pattern of either kind
//! - `pattern_view`: with which part of a path a pattern is matched
//! - `element`: the bytes or the tokens in which a pattern is stored
//! - `segment_ref`, `segments_left`: the segments of a pattern, one by one from either end
//! - `path_segment`: the segments of a path, and the number of byte tests
//! - `match_path`: matching the segments of a pattern with the segments of a path
//! - `match_segment`, `match_tokens`: matching one segment of a pattern with one segment of a path
//! - `cursor`: how far the match of a segment has come
//! - `match_above`: matching a pattern with all directories above a path
//! - `end_look`, `lengths`: rejecting a path by its last byte, by the first byte of a segment, or by the lengths of its segments
//! - `path`: paths and names, which other crates use too
//! - `cut`: splitting bytes at the first occurrence of a byte
#![tactic(auto)]

mod bracket;
mod byte_set;
mod candidate;
mod cursor;
mod cut;
mod element;
mod end_look;
mod lengths;
mod match_above;
mod match_path;
mod match_segment;
mod match_tokens;
pub mod path;
mod path_segment;
mod pattern;
mod pattern_ref;
mod pattern_set;
mod pattern_view;
mod reading;
mod scope;
mod segment_ref;
mod segments_left;
mod simple_pattern;
mod token;
mod token_pattern;

pub use candidate::Candidate;
pub use cut::cut_at_first;
pub use pattern::{Pattern, is_match_decides};
pub use pattern_set::PatternSet;
