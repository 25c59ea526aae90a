//! Splitting the last word or the last assignment off an attribute line.

ghost use Rattle.std.specs.Prelude.{◌≡◌, ◌<◌, ◌≤◌, ◌∷◌, [], ◌++◌, length, IfSome, MatchOption};
ghost use Rattle.lc_rules.specs.AttrWords.{words};
ghost use Rattle.lc_rules.specs.LastWord.{EndsBlack, IsLastWordAt};
ghost use Rattle.lc_rules.specs.Models.{assignment_model};
ghost use Rattle.lc_rules.specs.WrittenLines.{assigned};

use crate::assignment::Assignment;
use crate::attr_words::{is_white, read_assignment};

/// Returns the bytes without the white space at their end.
fn trimmed_end<'a>(bytes: &'a [u8]) -> &'a [u8]
    ensures same { words result.now ≡ words bytes.now }
    ensures shorter { length result.now ≤ length bytes.now }
    ensures black { EndsBlack result.now }
{
    let mut rest = bytes;
    'bytes: while let Some((b, before)) = rest.split_last() {
        if !is_white(*b) {
            return rest;
        }
        rest = before;
    }
    rest
}

/// Returns the index at which the last word begins, in bytes that end with that word.
fn last_word_start(bytes: &[u8]) -> usize
    ensures within { result ≤ length bytes.now }
    ensures is { IsLastWordAt result bytes.now }
{
    let mut start = bytes.len();
    'bytes: while start > 0 && !is_white(bytes[start - 1]) {
        start -= 1;
    }
    start
}

/// Returns the bytes before the last word, and that word.
fn split_last_word<'a>(bytes: &'a [u8]) -> Option<(&'a [u8], &'a [u8])>
    ensures cases { MatchOption result (words bytes.now ≡ []) (λ p. words bytes.now ≡ words p.0.now ++ p.1.now ∷ []) }
    ensures smaller { IfSome result (λ p. length p.0.now < length bytes.now) }
{
    let rest = trimmed_end(bytes);
    if rest.is_empty() {
        return None;
    }
    let start = last_word_start(rest);
    Some((&rest[..start], &rest[start..]))
}

/// Returns the last word that is an assignment, and the bytes before the word.
pub(crate) fn split_last_assignment<'a>(bytes: &'a [u8]) -> Option<(Assignment<'a>, &'a [u8])>
    ensures cases { MatchOption result (assigned bytes.now ≡ [])
        (λ p. assigned bytes.now ≡ assigned p.1.now ++ assignment_model p.0 ∷ []) }
    ensures smaller { IfSome result (λ p. length p.1.now < length bytes.now) }
{
    let mut rest = bytes;
    'words: while let Some((before, word)) = split_last_word(rest) {
        if let Some(assignment) = read_assignment(word) {
            return Some((assignment, before));
        }
        rest = before;
    }
    None
}
