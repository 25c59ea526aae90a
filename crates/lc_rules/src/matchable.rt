//! Finding lines whose rules match nothing.

ghost use Rattle.std.specs.Prelude.{◌≡◌, IfOk};
ghost use Rattle.lc_glob.specs.Path.{segments_of};
ghost use Rattle.lc_rules.specs.CanMatch.{can_match, has_dots, is_dots, is_special, pattern_text};

use crate::ignore_line::{read_rule, text_of_line};
use lc_glob::cut_at_first;
use std::alloc::{AllocError, Global};

/// Returns whether a segment is `.` or `..`, which is the name of no entry.
fn is_dots(segment: &[u8]) -> bool
    ensures { result ≡ is_dots segment.now }
{
    matches!(segment, [b'.'] | [b'.', b'.'])
}

/// Returns whether a segment has a `[` or a backslash, which may quote a slash that comes later.
fn is_special(segment: &[u8]) -> bool
    ensures { result ≡ is_special segment.now }
{
    segment.contains(&b'[') || segment.contains(&b'\\')
}

/// Returns whether a segment of a pattern is `.` or `..`. Only the segments before the first that has a bracket or a backslash are tested.
fn has_dots(pattern: &[u8]) -> bool
    ensures { result ≡ has_dots (segments_of pattern.now) }
{
    let mut rest = pattern;
    'segments: loop {
        let (segment, others) = cut_at_first(b'/', rest);
        if is_special(segment) {
            return false;
        }
        if is_dots(segment) {
            return true;
        }
        let Some(next) = others else {
            return false;
        };
        rest = next;
    }
}

/// Returns the pattern of a rule's text: the text without the `!` that negates it.
fn pattern_text(text: &[u8]) -> &[u8]
    ensures { result.now ≡ pattern_text text.now }
{
    match text {
        [b'!', pattern @ ..] => pattern,
        _ => text,
    }
}

/// Returns whether a line of an ignore file may give a rule that matches a path. If the result is false, the line gives no rule, or a rule
/// that matches no path of an entry. If the result is true, nothing is known.
///
/// The result is false for an empty line, a comment, and a pattern that can't be read, such as `[a`. It is also false for a pattern with a
/// segment `.` or `..`, such as `./a`, since no entry has such a name. The search for `.` and `..` ends at the first segment that has a
/// bracket or a backslash.
///
/// ```
/// assert!(rt; can_match(alloc, b"*.o")? && !can_match(alloc, b"./src")?);
/// ```
pub fn can_match(alloc: Global, line: &[u8]) -> Result<bool, AllocError>
    ensures value { IfOk result (λ can. can ≡ can_match line.now) }
{
    match read_rule(alloc, 1, line)? {
        None => Ok(false),
        Some((_, pattern)) => {
            Ok(!pattern.is_dead() && !has_dots(pattern_text(text_of_line(line))))
        }
    }
}
