//! Merging two sorted lists: one line for each key of their elements.

ghost use Rattle.std.specs.{Prelude.{◌≡◌, IfOk, option_map}, List.Sorted.IsStrictlySortedBy, Ordering.on};
ghost use Rattle.lc_changes.specs.Merged.{AreMerged, left_of, next_of};

use std::alloc::{AllocError, Global};
use std::cmp::Ordering;

/// An element of a list that is merged with another list.
pub(crate) trait Keyed: Sized {
    ghost use Rattle.std.specs.Prelude.{◌≡◌, List, None, option_map};
    ghost use Rattle.std.specs.Cmp.{IsTotalOrder};
    ghost use Rattle.std.specs.Option.{MatchOption, option_or};
    ghost use Rattle.std.specs.declared.cmp.Ordering.{Ordering};
    ghost use Rattle.std.proofs.lemmas.Map.Lookups.{CmpEqualImpliesEq};
    ghost use Rattle.lc_changes.specs.Merged.{IsLineOf};

    /// The line of the elements that have one key.
    type Line: Drop;

    ghost Key: { Type 0 };

    ghost key: { Self → Key };

    ghost cmp: { Key → Key → Ordering };

    ghost line_key: { Self.Line → Key };

    ghost is_of: { List Self → List Self → Self.Line → Type 0 };

    /// Compares two elements by their keys.
    fn compare(&self, other: &Self) -> Ordering
        ensures { result ≡ cmp (key self.now) (key other.now) };

    /// Makes the line of an element of the old list and of an element of the new list, which have the same key, or of one of them.
    fn line(old: Option<&Self>, new: Option<&Self>) -> Option<Self::Line>
        ensures { MatchOption result (option_or (option_map (λ x. x.now) new.entry) (option_map (λ x. x.now) old.entry) ≡ None)
            (IsLineOf key line_key is_of (option_map (λ x. x.now) old.entry) (option_map (λ x. x.now) new.entry)) };

    ghost total: { IsTotalOrder cmp };

    ghost exact: { CmpEqualImpliesEq cmp };
}

/// Returns a list without its first element if this is the element `next`, and the whole list if there is no `next`.
fn left_of<'s, T>(next: Option<&T>, items: &'s [T]) -> &'s [T]
    ensures { result.now ≡ left_of (option_map (λ x. x.now) next.entry) items.entry.now }
{
    match (next, items.split_first()) {
        (Some(_), Some((_, left))) => left,
        _ => items,
    }
}

/// Returns the elements of both lists that have the least key.
fn next<'s, X: Keyed>(olds: &'s [X], news: &'s [X]) -> (Option<&'s X>, Option<&'s X>)
    ensures { (option_map (λ x. x.now) result.0, option_map (λ x. x.now) result.1) ≡ next_of X.key X.cmp olds.entry.now news.entry.now }
{
    match (olds.first(), news.first()) {
        (Some(old), Some(new)) => match old.compare(new) {
            Ordering::Less => (Some(old), None),
            Ordering::Equal => (Some(old), Some(new)),
            Ordering::Greater => (None, Some(new)),
        },
        firsts => firsts,
    }
}

/// Makes a line for each key of two lists, which are in the order of keys and have each key at most once. The lines are in this order too.
pub(crate) fn merged<'s, X: Keyed>(
    alloc: Global,
    olds: &'s [X],
    news: &'s [X],
) -> Result<Vec<X::Line>, AllocError>
    requires olds { IsStrictlySortedBy (on X.key X.cmp) olds.now }
    requires news { IsStrictlySortedBy (on X.key X.cmp) news.now }
    ensures { IfOk result (λ lines. AreMerged X.key X.cmp X.line_key X.is_of olds.now news.now lines.items) }
{
    let mut lines = Vec::new(alloc);
    let mut olds = olds;
    let mut news = news;
    'keys: loop {
        let (old, new) = next(olds, news);
        let Some(line) = X::line(old, new) else {
            return Ok(lines);
        };
        lines.push(line)?;
        olds = left_of(old, olds);
        news = left_of(new, news);
    }
}
