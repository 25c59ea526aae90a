//! Cutting bytes at the first occurrence of a byte.

ghost use Rattle.std.specs.{Prelude.{◌≡◌, ◌<◌, ◌∷◌, ◌++◌, [], length, IfSome, MatchOption}, List.{before_first, after_first}};
ghost use Rattle.lc_glob.specs.Pieces.{is_byte, pieces_of, pieces_left};

use memchr::memchr;

/// Splits `bytes` at the first occurrence of `byte`, into the bytes before and the bytes after this occurrence. If there is no occurrence,
/// it returns all bytes and `None`.
///
/// It reads the bytes before the cut once, and allocates nothing.
///
/// ```
/// let (name, value) = cut_at_first(b'=', b"eol=lf=");
/// assert!(rt; name == b"eol".as_slice() && value == Some(b"lf=".as_slice()));
/// ```
pub fn cut_at_first<'a>(byte: u8, bytes: &'a [u8]) -> (&'a [u8], Option<&'a [u8]>)
    ensures pieces { pieces_of byte bytes.now ≡ result.0.now ∷ pieces_left byte result.1 }
    ensures before { result.0.now ≡ before_first (is_byte byte) bytes.now }
    ensures after { MatchOption result.1 (after_first (is_byte byte) bytes.now ≡ [])
        (λ rest. rest.now ≡ after_first (is_byte byte) bytes.now) }
    ensures whole { MatchOption result.1 (bytes.now ≡ result.0.now) (λ rest. bytes.now ≡ result.0.now ++ byte ∷ rest.now) }
    ensures less { IfSome result.1 (λ rest. length rest.now < length bytes.now) }
{
    match memchr(byte, bytes) {
        None => (bytes, None),
        Some(place) => (&bytes[..place], Some(&bytes[place + 1..])),
    }
}
