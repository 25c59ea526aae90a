//! The meaning of a pattern's separators: at its ends and between its segments.

ghost use Rattle.std.specs.Prelude.{◌≡◌, ◌++◌, [], nat_lt, length, MatchOption, if◌then◌else◌, Some};
ghost use Rattle.lc_glob.specs.{Elements.{parts_in, trimmed_model}, Patterns.dead};
ghost use Rattle.lc_glob.specs.Reading.{begins_empty, ends_empty, pattern_from, some_empty, without_first, without_last};

use crate::element::{Element, has_no_token};
use crate::segments_left::SegmentsLeft;

/// How the slashes in a pattern restrict the paths that it matches.
#[derive(Clone, Copy)]
pub(crate) struct Scope {
    /// Whether the pattern matches directories only, such as `build/`.
    pub(crate) is_dir_only: bool,
    /// Whether the pattern is matched with a whole path, such as `/a` and `a/b`, and not with a path's last segment alone, such as `a`.
    pub(crate) is_anchored: bool,
}

/// Removes a separator from each end of a pattern's elements, if one is there. It returns the pattern's scope and the elements that are
/// left. It returns `None` if a segment is empty, as in `a//b`, which makes the pattern dead.
pub(crate) fn trim<'p, E: Element>(elements: &'p [E]) -> Option<(Scope, &'p [E])>
    ensures { MatchOption result (pattern_from (Some (parts_in E.tokens_in E.separates elements.now)) ≡ dead)
        (λ r. pattern_from (Some (parts_in E.tokens_in E.separates elements.now))
        ≡ trimmed_model E.tokens_in E.separates r.0.is_dir_only r.0.is_anchored r.1.now) }
{
    let (front, is_dir_only) = without_last_separator(elements);
    let (segments, leads) = without_first_separator(front);
    if has_empty(segments) {
        return None;
    }
    let is_anchored = leads || has_separator(segments);
    let scope = Scope {
        is_dir_only,
        is_anchored,
    };
    Some((scope, segments))
}

/// Returns the elements without a separator at their end, and whether they ended in one.
fn without_last_separator<'p, E: Element>(elements: &'p [E]) -> (&'p [E], bool)
    ensures ends { result.1 ≡ ends_empty (parts_in E.tokens_in E.separates elements.now) }
    ensures parts { parts_in E.tokens_in E.separates result.0.now
        ≡ (if ends_empty (parts_in E.tokens_in E.separates elements.now)
        then without_last (parts_in E.tokens_in E.separates elements.now) else parts_in E.tokens_in E.separates elements.now) }
{
    let (front, last) = E::cut_at_last_separator(elements);
    let Some(front) = front else {
        return (elements, false);
    };
    if has_no_token(last) {
        (front, true)
    } else {
        (elements, false)
    }
}

/// Returns the elements without a separator at their beginning, and whether they began with one.
fn without_first_separator<'p, E: Element>(elements: &'p [E]) -> (&'p [E], bool)
    ensures begins { result.1 ≡ begins_empty (parts_in E.tokens_in E.separates elements.now) }
    ensures parts { parts_in E.tokens_in E.separates result.0.now
        ≡ (if begins_empty (parts_in E.tokens_in E.separates elements.now)
        then without_first (parts_in E.tokens_in E.separates elements.now) else parts_in E.tokens_in E.separates elements.now) }
{
    let (first, rest) = E::cut_at_first_separator(elements);
    let Some(rest) = rest else {
        return (elements, false);
    };
    if has_no_token(first) {
        (rest, true)
    } else {
        (elements, false)
    }
}

/// Returns whether some segment of the elements is empty, which makes the pattern dead.
fn has_empty<E: Element>(elements: &[E]) -> bool
    ensures { result ≡ some_empty (parts_in E.tokens_in E.separates elements.now) }
{
    let mut rest = SegmentsLeft::of(elements);
    'segments: while let Some((segment, others)) = rest.split_first() {
        if has_no_token(segment) {
            return true;
        }
        rest = others;
    }
    false
}

fn has_separator<E: Element>(elements: &[E]) -> bool
    ensures { result ≡ nat_lt 1 (length (parts_in E.tokens_in E.separates elements.now)) }
{
    let (_, after) = E::cut_at_first_separator(elements);
    match after {
        None => false,
        Some(_) => true,
    }
}
