//! Splitting a line of an attribute file into words, and reading words as assignments, such as `-text`.

ghost use Rattle.std.specs.Prelude.{◌≡◌, ◌≤◌, ◌<◌, ◌∷◌, [], length, IfSome, MatchOption};
ghost use Rattle.std.specs.List.{before_first, list_all, position_or_len};
ghost use Rattle.lc_glob.specs.Pieces.{is_byte};
ghost use Rattle.lc_rules.specs.Bytes.{equals_sign};
ghost use Rattle.lc_rules.specs.AttrLines.{trimmed};
ghost use Rattle.lc_rules.specs.AttrWords.{is_white, words, IsEndOf, is_name_byte, is_name, named, assign, assigns, plain_assign};
ghost use Rattle.lc_rules.specs.Models.{assignment_model, seen_assign, state_model};
ghost use Rattle.lc_rules.specs.WrittenLines.{all_assigned, assigned};

use crate::assignment::Assignment;
use crate::states::State;
use lc_glob::cut_at_first;
use memchr::memchr;

pub(crate) fn is_white(b: u8) -> bool
    ensures { result ≡ is_white b }
{
    b == b' ' || b == b'\t' || b == b'\r'
}

/// Returns a line without the white space at its start.
pub(crate) fn trimmed<'a>(line: &'a [u8]) -> &'a [u8]
    ensures is { result.now ≡ trimmed line.now }
    ensures shorter { length result.now ≤ length line.now }
    ensures end { IsEndOf result.now line.now }
{
    let mut rest = line;
    'bytes: while let Some((b, others)) = rest.split_first() {
        if !is_white(*b) {
            return rest;
        }
        rest = others;
    }
    rest
}

/// Returns the index of the first white-space byte, or the length if there is no such byte.
pub(crate) fn word_end(bytes: &[u8]) -> usize
    ensures is { result ≡ position_or_len is_white bytes.now }
    ensures within { result ≤ length bytes.now }
{
    for (i, b) in bytes.iter().enumerate() {
        if is_white(*b) {
            return i;
        }
    }
    bytes.len()
}

/// Returns the first word, and the bytes after the word.
pub(crate) fn split_word<'a>(bytes: &'a [u8]) -> Option<(&'a [u8], &'a [u8])>
    ensures cases { MatchOption result (words bytes.now ≡ []) (λ p. words bytes.now ≡ p.0.now ∷ words p.1.now) }
    ensures smaller { IfSome result (λ p. length p.1.now < length bytes.now) }
{
    let rest = trimmed(bytes);
    if rest.is_empty() {
        return None;
    }
    let end = word_end(rest);
    Some((&rest[..end], &rest[end..]))
}

fn is_name_byte(b: u8) -> bool
    ensures { result ≡ is_name_byte b }
{
    (b'A' <= b && b <= b'Z')
        || (b'a' <= b && b <= b'z')
        || (b'0' <= b && b <= b'9')
        || b == b'-'
        || b == b'.'
        || b == b'_'
}

/// Returns whether an attribute or a macro can have this name: one or more ASCII letters, digits, `-`, `.` and `_`, without a `-` at the
/// beginning, such as `linguist-vendored` (gitattributes(5)).
pub fn is_attribute_name(name: &[u8]) -> bool
    ensures { result ≡ is_name name.now }
{
    let Some((first, _)) = name.split_first() else {
        return false;
    };
    *first != b'-' && has_name_bytes(name)
}

fn has_name_bytes(name: &[u8]) -> bool
    ensures { result ≡ list_all is_name_byte name.now }
{
    name.iter().all(|b| is_name_byte(*b))
}

/// Returns the assignment of a state to a name, or `None` if no attribute can have this name.
fn named<'a>(name: &'a [u8], state: State<'a>) -> Option<Assignment<'a>>
    ensures { seen_assign result ≡ named name.now (state_model state.entry) }
{
    if is_attribute_name(name) {
        Some(Assignment { name, state })
    } else {
        None
    }
}

fn before_equals<'a>(word: &'a [u8]) -> &'a [u8]
    ensures { result.now ≡ before_first (is_byte equals_sign) word.now }
{
    cut_at_first(b'=', word).0
}

fn read_plain<'a>(word: &'a [u8]) -> Option<Assignment<'a>>
    ensures { seen_assign result ≡ plain_assign word.now }
{
    let Some(i) = memchr(b'=', word) else {
        return named(word, State::Set);
    };
    named(&word[..i], State::Value(&word[i + 1..]))
}

/// Reads a word as an assignment, such as `-text` or `eol=lf`. Returns `None` if no attribute can have the word's name.
pub(crate) fn read_assignment<'a>(word: &'a [u8]) -> Option<Assignment<'a>>
    ensures { seen_assign result ≡ assign word.now }
{
    let (first, rest) = word.split_first()?;
    match first {
        b'-' => named(before_equals(rest), State::Unset),
        b'!' => named(before_equals(rest), State::Unspecified),
        _ => read_plain(word),
    }
}

/// Returns whether each word in these bytes is an assignment.
pub(crate) fn are_assignments(bytes: &[u8]) -> bool
    ensures { assigns (words bytes.now) ≡ all_assigned result bytes.now }
{
    let mut rest = bytes;
    'words: while let Some((word, others)) = split_word(rest) {
        let Some(_) = read_assignment(word) else {
            return false;
        };
        rest = others;
    }
    true
}

/// Returns the first word that is an assignment, and the bytes after the word.
pub(crate) fn split_assignment<'a>(bytes: &'a [u8]) -> Option<(Assignment<'a>, &'a [u8])>
    ensures cases { MatchOption result (assigned bytes.now ≡ []) (λ p. assigned bytes.now ≡ assignment_model p.0 ∷ assigned p.1.now) }
    ensures smaller { IfSome result (λ p. length p.1.now < length bytes.now) }
{
    let mut rest = bytes;
    'words: while let Some((word, others)) = split_word(rest) {
        if let Some(assignment) = read_assignment(word) {
            return Some((assignment, others));
        }
        rest = others;
    }
    None
}
