//! Escaping paths for a terminal.

ghost use Rattle.std.specs.Prelude.{◌≡◌, ◌++◌, OnOk, chars, encode_utf8, flat_map, string_bytes};
ghost use Rattle.std.specs.List.{list_all};
ghost use Rattle.lc_text.specs.Escape.{hex_byte};
ghost use Rattle.lc_text.specs.Visible.{is_clear, is_hidden, visible_byte, visible_bytes, visible_char, visible_path};

use crate::escaping::{hex_digit, is_control, is_plain};
use std::alloc::AllocError;
use std::str::from_utf8;

fn is_hidden(c: char) -> bool
    ensures { result ≡ is_hidden c }
{
    matches!(
        c,
        '\0'..='\u{1f}'
            | '\u{7f}'
            | '\u{80}'..='\u{9f}'
            | '\u{61c}'
            | '\u{200e}'..='\u{200f}'
            | '\u{2028}'..='\u{202e}'
            | '\u{2066}'..='\u{2069}'
    )
}

fn push_hex(text: &mut String, b: u8) -> Result<(), AllocError>
    ensures { OnOk result (string_bytes text.new ≡ string_bytes text.old ++ hex_byte b) }
{
    text.push_str("\\x")?;
    text.push(char::from(hex_digit(b / 16)))?;
    text.push(char::from(hex_digit(b % 16)))
}

fn push_hidden(text: &mut String, c: char) -> Result<(), AllocError>
    ensures { OnOk result (string_bytes text.new ≡ string_bytes text.old ++ flat_map hex_byte (encode_utf8 c)) }
{
    let mut buffer = [0; 4];
    for b in c.encode_utf8(&mut buffer).as_bytes() {
        push_hex(text, *b)?;
    }
    Ok(())
}

fn push_visible_char(text: &mut String, c: char) -> Result<(), AllocError>
    ensures { OnOk result (string_bytes text.new ≡ string_bytes text.old ++ visible_char c) }
{
    if c == '\\' {
        text.push_str("\\\\")
    } else if is_hidden(c) {
        push_hidden(text, c)
    } else {
        text.push(c)
    }
}

fn push_visible_byte(text: &mut String, b: u8) -> Result<(), AllocError>
    ensures { OnOk result (string_bytes text.new ≡ string_bytes text.old ++ visible_byte b) }
{
    if b >= 128 || is_control(b) {
        push_hex(text, b)
    } else if b == b'\\' {
        text.push_str("\\\\")
    } else {
        text.push(char::from(b))
    }
}

fn push_each_byte(text: &mut String, bytes: &[u8]) -> Result<(), AllocError>
    ensures { OnOk result (string_bytes text.new ≡ string_bytes text.old ++ flat_map visible_byte bytes.now) }
{
    for b in bytes {
        push_visible_byte(text, *b)?;
    }
    Ok(())
}

fn are_clear(bytes: &[u8]) -> bool
    ensures { result ≡ list_all is_clear bytes.now }
{
    bytes.iter().all(|b| *b < 128 && is_plain(*b))
}

fn push_text(text: &mut String, shown: &str) -> Result<(), AllocError>
    ensures { OnOk result (string_bytes text.new ≡ string_bytes text.old ++ flat_map visible_char (chars shown.now)) }
{
    // Most paths have nothing but printable ASCII, and are copied whole.
    if are_clear(shown.as_bytes()) {
        return text.push_str(shown);
    }
    for c in shown.chars() {
        push_visible_char(text, c)?;
    }
    Ok(())
}

/// Appends bytes, escaped for a terminal. Like [`push_escaped`](crate::push_escaped), but also writes `\x` and two digits for each byte of
/// a character that moves the cursor or turns the direction of text. If the bytes are not UTF-8, each byte of value 128 or more is written
/// in this way too.
pub fn push_visible(text: &mut String, bytes: &[u8]) -> Result<(), AllocError>
    ensures { OnOk result (string_bytes text.new ≡ string_bytes text.old ++ visible_bytes bytes.now) }
{
    match from_utf8(bytes) {
        Ok(shown) => push_text(text, shown),
        Err(_) => push_each_byte(text, bytes),
    }
}

/// Appends a path, escaped for a terminal. The empty path, which is that of a tree's top directory, becomes a dot.
///
/// ```
/// push_visible_path(&mut text, "a\u{202e}b".as_bytes())?;
/// assert!(rt; text.as_str() == "a\\xe2\\x80\\xaeb");
/// ```
pub fn push_visible_path(text: &mut String, path: &[u8]) -> Result<(), AllocError>
    ensures { OnOk result (string_bytes text.new ≡ string_bytes text.old ++ visible_path path.now) }
{
    if path.is_empty() {
        text.push_str(".")
    } else {
        push_visible(text, path)
    }
}
