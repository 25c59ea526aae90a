//! Reading the quoted patterns of attribute lines.

ghost use Rattle.std.specs.Prelude.{◌≡◌, ◌≤◌, length, IfOk, IfSome, MatchOption, Some, None};
ghost use Rattle.lc_rules.specs.AttrQuotes.{escape, octal, is_octal, unquoted};

use std::alloc::{AllocError, Global};

fn is_octal(b: u8, most: u8) -> bool
    ensures { result ≡ is_octal most b }
{
    b'0' <= b && b <= most
}

fn octal(bytes: &[u8]) -> Option<(u8, usize)>
    ensures is { result ≡ octal bytes.now }
    ensures within { IfSome result (λ r. r.1 ≤ length bytes.now) }
{
    match bytes {
        [c, d, e, ..] => {
            if is_octal(*c, b'3') && is_octal(*d, b'7') && is_octal(*e, b'7') {
                Some(((*c - b'0') * 64 + (*d - b'0') * 8 + (*e - b'0'), 3))
            } else {
                None
            }
        }
        _ => None,
    }
}

/// Reads the escape that follows a backslash. Returns the byte that the escape means, and the number of bytes of the escape.
fn escape(bytes: &[u8]) -> Option<(u8, usize)>
    ensures is { result ≡ escape bytes.now }
    ensures within { IfSome result (λ r. r.1 ≤ length bytes.now) }
{
    let (first, _) = bytes.split_first()?;
    match first {
        b'a' => Some((7, 1)),
        b'b' => Some((8, 1)),
        b'f' => Some((12, 1)),
        b'n' => Some((10, 1)),
        b'r' => Some((13, 1)),
        b't' => Some((9, 1)),
        b'v' => Some((11, 1)),
        b'\\' => Some((b'\\', 1)),
        b'"' => Some((b'"', 1)),
        _ => octal(bytes),
    }
}

/// Reads a pattern from after its opening quotation mark. Returns the pattern, with its escapes replaced, and the bytes after the closing
/// mark.
pub(crate) fn unquoted<'a>(
    alloc: Global,
    bytes: &'a [u8],
) -> Result<Option<(Vec<u8>, &'a [u8])>, AllocError>
    ensures { IfOk result (λ r. MatchOption r (unquoted 0 bytes.now ≡ None) (λ p. unquoted 0 bytes.now ≡ Some (p.0.items, p.1.now))) }
{
    let mut text = Vec::new(alloc);
    let mut rest = bytes;
    'bytes: loop {
        let Some((b, others)) = rest.split_first() else {
            return Ok(None);
        };
        match b {
            b'"' => return Ok(Some((text, others))),
            b'\\' => {
                let Some((byte, taken)) = escape(others) else {
                    return Ok(None);
                };
                text.push(byte)?;
                rest = &others[taken..];
            }
            _ => {
                text.push(*b)?;
                rest = others;
            }
        }
    }
}
