//! Escaping paths for a program.

ghost use Rattle.std.specs.Prelude.{◌≡◌, ◌<◌, ◌++◌, IfOk, OnOk};
ghost use Rattle.std.specs.List.{list_all};
ghost use Rattle.lc_text.specs.Escape.{hex_digit, is_control, is_plain, escape_byte, escape_bytes, escape_path};

use std::alloc::{AllocError, Global};

pub(crate) fn hex_digit(n: u8) -> u8
    requires { n < 16 }
    ensures { result ≡ hex_digit n }
{
    if n < 10 { b'0' + n } else { b'a' - 10 + n }
}

pub(crate) fn is_control(b: u8) -> bool
    ensures { result ≡ is_control b }
{
    b < 32 || b == 127
}

fn push_escaped_byte(text: &mut Vec<u8>, b: u8) -> Result<(), AllocError>
    ensures { OnOk result (text.new.items ≡ text.old.items ++ escape_byte b) }
{
    if b == b'\\' {
        text.extend_from_slice(b"\\\\")
    } else if is_control(b) {
        text.extend_from_slice(&[b'\\', b'x', hex_digit(b / 16), hex_digit(b % 16)])
    } else {
        text.extend_from_slice(&[b])
    }
}

pub(crate) fn is_plain(b: u8) -> bool
    ensures { result ≡ is_plain b }
{
    b != b'\\' && !is_control(b)
}

fn are_plain(bytes: &[u8]) -> bool
    ensures { result ≡ list_all is_plain bytes.now }
{
    bytes.iter().all(|b| is_plain(*b))
}

/// Appends bytes, escaped for a program: a backslash becomes two backslashes, and a control byte becomes `\x` and two hexadecimal digits.
pub fn push_escaped(text: &mut Vec<u8>, bytes: &[u8]) -> Result<(), AllocError>
    ensures { OnOk result (text.new.items ≡ text.old.items ++ escape_bytes bytes.now) }
{
    // Most paths have nothing to escape, and are copied whole.
    if are_plain(bytes) {
        return text.extend_from_slice(bytes);
    }
    for b in bytes {
        push_escaped_byte(text, *b)?;
    }
    Ok(())
}

/// Appends a path, escaped as [`escape`] does. The empty path, which is that of a tree's top directory, becomes a dot.
pub fn push_path(text: &mut Vec<u8>, path: &[u8]) -> Result<(), AllocError>
    ensures { OnOk result (text.new.items ≡ text.old.items ++ escape_path path.now) }
{
    if path.is_empty() {
        text.extend_from_slice(b".")
    } else {
        push_escaped(text, path)
    }
}

/// Returns a path, escaped for a program, so that the result is on one line and has no tab. The empty path, which is that of a tree's top
/// directory, becomes a dot.
///
/// `t`, the byte 1 and `.c` become `t\x01.c`, and `a\b` becomes `a\\b`.
pub fn escape(alloc: Global, path: &[u8]) -> Result<Vec<u8>, AllocError>
    ensures { IfOk result (λ text. text.items ≡ escape_path path.now) }
{
    let mut text = Vec::new(alloc);
    push_path(&mut text, path)?;
    Ok(text)
}
