//! Reading a bracket of a pattern, such as `[a-z]`, as tokens. The items of a bracket are bytes, ranges and classes.

ghost use Rattle.std.specs.Prelude.{◌≡◌, ◌<◌, ◌≤◌, ◌+◌, ◌++◌, length, [], ◌∷◌, MatchOption, IfOk, IfSome, Some, None, true, not, ◌&&◌};
ghost use Rattle.std.specs.Prelude.{◌==◌};
ghost use Rattle.lc_glob.specs.Bytes.{closing};
ghost use Rattle.lc_glob.specs.Brackets.{class_of, other_class_of, element, first_close, range_from, item, plain_item, colon_of, items};
ghost use Rattle.lc_glob.specs.{Brackets.bracket, BracketSteps.ColonIs, TokenLists.range_tokens, Pushes.{Pushes, kept_tokens}};

use crate::token::Token;
use memchr::memchr;
use std::alloc::AllocError;

/// Returns the byte that `b` means in a bracket, and how many bytes of `rest` were read. A backslash means the byte after it.
fn element_at(b: u8, rest: &[u8]) -> Option<(u8, usize)>
    ensures is { result ≡ element b rest.now }
    ensures within { IfSome result (λ r. (r.1 ≤ length rest.now) × (r.1 ≤ 1)) }
{
    if b != b'\\' {
        return Some((b, 0));
    }
    let (c, _) = rest.split_first()?;
    Some((*c, 1))
}

/// Returns the range that begins with the byte `x`, such as `a-z`, or the range of `x` alone. It also returns `taken` plus the number of
/// bytes of `rest` that it read.
fn range_at(x: u8, taken: usize, rest: &[u8]) -> Option<((u8, u8), usize)>
    requires { taken ≤ 1 }
    ensures is { MatchOption result (range_from x taken rest.now ≡ None) (λ r. range_from x taken rest.now ≡ Some (r.0 ∷ [], r.1)) }
    ensures within { IfSome result (λ r. (r.1 ≤ taken + length rest.now) × (r.1 ≤ 4)) }
{
    let Some((hyphen, after_hyphen)) = rest.split_first() else {
        return Some(((x, x), taken));
    };
    let Some((end, after_end)) = after_hyphen.split_first() else {
        return Some(((x, x), taken));
    };
    if *hyphen != b'-' || *end == b']' {
        return Some(((x, x), taken));
    }
    let (y, more) = element_at(*end, after_end)?;
    Some(((x, x.max(y)), taken + 2 + more))
}

/// Returns the ASCII ranges of a class with more than letters and digits, by its name, such as `punct` of `[:punct:]`.
fn other_class_at(name: &[u8]) -> Option<&'static [(u8, u8)]>
    ensures { MatchOption result (other_class_of name.now ≡ None) (λ r. other_class_of name.now ≡ Some r.now) }
{
    if name == b"blank".as_slice() {
        Some(&[(b' ', b' '), (b'\t', b'\t')])
    } else if name == b"space".as_slice() {
        Some(&[(b' ', b' '), (b'\t', b'\r')])
    } else if name == b"cntrl".as_slice() {
        Some(&[(0, 31), (127, 127)])
    } else if name == b"graph".as_slice() {
        Some(&[(b'!', b'~')])
    } else if name == b"print".as_slice() {
        Some(&[(b' ', b'~')])
    } else if name == b"punct".as_slice() {
        Some(&[(b'!', b'/'), (b':', b'@'), (b'[', b'`'), (b'{', b'~')])
    } else {
        None
    }
}

/// Returns the ASCII ranges of a class by its name, such as `alpha` of `[:alpha:]`.
fn class_at(name: &[u8]) -> Option<&'static [(u8, u8)]>
    ensures { MatchOption result (class_of name.now ≡ None) (λ r. class_of name.now ≡ Some r.now) }
{
    if name == b"alpha".as_slice() {
        Some(&[(b'A', b'Z'), (b'a', b'z')])
    } else if name == b"lower".as_slice() {
        Some(&[(b'a', b'z')])
    } else if name == b"upper".as_slice() {
        Some(&[(b'A', b'Z')])
    } else if name == b"digit".as_slice() {
        Some(&[(b'0', b'9')])
    } else if name == b"xdigit".as_slice() {
        Some(&[(b'0', b'9'), (b'A', b'F'), (b'a', b'f')])
    } else if name == b"alnum".as_slice() {
        Some(&[(b'0', b'9'), (b'A', b'Z'), (b'a', b'z')])
    } else {
        other_class_at(name)
    }
}

/// What the two bytes `[:` begin in a bracket.
enum Colon {
    /// A class, such as `[:alpha:]`: its ranges, and how many bytes it has after its first `[`.
    Class(&'static [(u8, u8)], usize),
    /// A class with an unknown name. The pattern is dead: it matches nothing.
    Unknown,
    /// Not a class, so the `[` is an ordinary byte.
    Ordinary,
}

/// Returns what `[:` begins in a bracket. `after_colon` has the bytes after it, with the first `]` at the index `close`.
fn colon_at(after_colon: &[u8], close: usize) -> Colon
    requires { close < length after_colon.now }
    ensures { ColonIs result after_colon.now close }
{
    if close == 0 || after_colon[close - 1] != b':' {
        return Colon::Ordinary;
    }
    let Some(ranges) = class_at(&after_colon[..close - 1]) else {
        return Colon::Unknown;
    };
    Colon::Class(ranges, close + 2)
}

/// Pushes the range of a bracket's item that is one byte or a range. It returns how many bytes after the item's first byte `b` belong to
/// the item.
fn push_plain(b: u8, rest: &[u8], tokens: &mut Vec<Token>) -> Result<Option<usize>, AllocError>
    ensures is { IfOk result (λ r. Pushes range_tokens (plain_item b rest.now) tokens.old.items tokens.new.items r) }
    ensures within { IfOk result (λ r. IfSome r (λ k. k ≤ length rest.now)) }
{
    let Some((x, used)) = element_at(b, rest) else {
        return Ok(None);
    };
    let Some((range, taken)) = range_at(x, used, &rest[used..]) else {
        return Ok(None);
    };
    tokens.push(Token::Range(range.0, range.1))?;
    Ok(Some(taken))
}

fn push_ranges(ranges: &[(u8, u8)], tokens: &mut Vec<Token>) -> Result<(), AllocError>
    ensures { IfOk result (λ _. tokens.new.items ≡ tokens.old.items ++ range_tokens ranges.now) }
{
    for (first, last) in ranges {
        tokens.push(Token::Range(*first, *last))?;
    }
    Ok(())
}

/// Returns the index of the first `]`, or the length if there is none.
fn first_close(bytes: &[u8]) -> usize
    ensures is { result ≡ first_close bytes.now }
    ensures within { result ≤ length bytes.now }
{
    match memchr(b']', bytes) {
        None => bytes.len(),
        Some(place) => place,
    }
}

/// Pushes the ranges of a bracket's item that begins with `[:`, and returns how many bytes after this `[` belong to the item.
fn push_colon(
    after_bracket: &[u8],
    after_colon: &[u8],
    tokens: &mut Vec<Token>,
) -> Result<Option<usize>, AllocError>
    requires { length after_colon.now + 1 ≡ length after_bracket.now }
    ensures is { IfOk result (λ r. Pushes range_tokens (colon_of after_bracket.now after_colon.now) tokens.old.items tokens.new.items r) }
    ensures within { IfOk result (λ r. IfSome r (λ k. k ≤ length after_bracket.now)) }
{
    let close = first_close(after_colon);
    if close == after_colon.len() {
        return Ok(None);
    }
    match colon_at(after_colon, close) {
        Colon::Class(ranges, taken) => {
            push_ranges(ranges, tokens)?;
            Ok(Some(taken))
        }
        Colon::Unknown => Ok(None),
        Colon::Ordinary => push_plain(b'[', after_bracket, tokens),
    }
}

/// Pushes the ranges of a bracket's item that begins with `b`, and returns how many bytes after `b` belong to the item. It returns `None`
/// if the item makes the pattern dead.
fn push_item(b: u8, rest: &[u8], tokens: &mut Vec<Token>) -> Result<Option<usize>, AllocError>
    ensures is { IfOk result (λ r. Pushes range_tokens (item b rest.now) tokens.old.items tokens.new.items r) }
    ensures within { IfOk result (λ r. IfSome r (λ k. k ≤ length rest.now)) }
{
    let Some((c, after_colon)) = rest.split_first() else {
        return push_plain(b, rest, tokens);
    };
    if b == b'[' && *c == b':' {
        push_colon(rest, after_colon, tokens)
    } else {
        push_plain(b, rest, tokens)
    }
}

/// Returns whether a byte closes the bracket: it is a `]`, and not the first item.
fn closes(b: u8, first: bool) -> bool
    ensures { result ≡ (b == closing && not first) }
{
    b == b']' && !first
}

/// Pushes the ranges of a bracket's items up to the closing `]`, and returns how many bytes it read, the `]` included.
fn push_items(bytes: &[u8], tokens: &mut Vec<Token>) -> Result<Option<usize>, AllocError>
    ensures is { IfOk result (λ r. Pushes range_tokens (items true 0 bytes.now) tokens.old.items tokens.new.items r) }
    ensures within { IfOk result (λ r. IfSome r (λ k. k ≤ length bytes.now)) }
{
    let mut rest = bytes;
    let mut first = true;
    'items: loop {
        let Some((b, others)) = rest.split_first() else {
            return Ok(None);
        };
        if closes(*b, first) {
            return Ok(Some(bytes.len() - others.len()));
        }
        let Some(taken) = push_item(*b, others, tokens)? else {
            return Ok(None);
        };
        rest = &others[taken..];
        first = false;
    }
}

/// Pushes the tokens of the bracket whose `[` comes before these bytes, and returns how many of the bytes belong to the bracket. It returns
/// `None` if the bracket makes the pattern dead.
pub(crate) fn push_bracket(
    bytes: &[u8],
    tokens: &mut Vec<Token>,
) -> Result<Option<usize>, AllocError>
    ensures is { IfOk result (λ r. Pushes kept_tokens (bracket bytes.now) tokens.old.items tokens.new.items r) }
    ensures within { IfOk result (λ r. IfSome r (λ k. k ≤ length bytes.now)) }
{
    let Some((b, rest)) = bytes.split_first() else {
        return Ok(None);
    };
    let negated = *b == b'!' || *b == b'^';
    tokens.push(Token::Open(negated))?;
    let Some(taken) = push_items(if negated { rest } else { bytes }, tokens)? else {
        return Ok(None);
    };
    Ok(Some(taken + usize::from(negated)))
}
