//! Escapes the texts of usage errors, so that no typed control character reaches a terminal.

ghost use Rattle.std.specs.Prelude.{IfOk, chars, flat_map, string_bytes};
ghost use Rattle.lc_arguments.specs.Refusals.{IsMessage};

use lc_text::push_visible;
use std::alloc::{AllocError, Global};
use std::convert::AsStr;

/// Copies arguments, with control characters escaped for a terminal.
pub(crate) fn visible_words<W: AsStr>(
    alloc: Global,
    words: &[W],
) -> Result<Vec<String>, AllocError> {
    let mut visible = Vec::new(alloc);
    for word in words {
        let mut text = String::new(alloc);
        push_visible(&mut text, word.as_str().as_bytes())?;
        visible.push(text)?;
    }
    Ok(visible)
}

/// Escapes a message, and adds `error: ` at its beginning if it is missing there. Each byte of a character that moves a terminal's cursor
/// or turns the direction of text becomes `\x` and two digits. Backslashes stay as they are.
///
/// ```
/// assert!(rt; message(rt.alloc(), "error: no \u{1b}[2J\n")?.as_str() == "error: no \\x1b[2J\n");
/// ```
pub(crate) fn message(alloc: Global, text: &str) -> Result<String, AllocError>
    ensures { IfOk result (λ message. IsMessage (string_bytes message)) }
{
    let mut message = String::from_str(alloc, "error: ")?;
    let rest = text.strip_prefix("error: ").unwrap_or(text);
    for c in rest.chars() {
        if c == '\n' || c == '\\' {
            message.push(c)?;
        } else {
            let mut buffer = [0; 4];
            push_visible(&mut message, c.encode_utf8(&mut buffer).as_bytes())?;
        }
    }
    Ok(message)
}
