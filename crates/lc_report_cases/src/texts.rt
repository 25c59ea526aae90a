//! Columns as texts, and texts in answers.

use lc_tests::cases::push_bytes;
use std::alloc::AllocError;

/// Returns the column at this place, or an empty one.
pub(crate) fn column<'a>(columns: &[&'a [u8]], place: usize) -> &'a [u8] {
    columns.get(place).copied().unwrap_or(b"")
}

/// Returns whether an answer shows a character as it is.
fn is_shown(c: char) -> bool {
    match c {
        '\n' | '\t' => true,
        '\\' | '\u{2000}'..='\u{206f}' => false,
        _ => !c.is_control(),
    }
}

fn push_visible(answer: &mut String, text: &str) -> Result<(), AllocError> {
    for c in text.chars() {
        if is_shown(c) {
            answer.push(c)?;
        } else {
            push_bytes(answer, c.encode_utf8(&mut [0; 4]).as_bytes())?;
        }
    }
    Ok(())
}

/// Appends a text to an answer as it is, but with the escapes of a column for backslashes, for characters that are not seen, other than tabs
/// and line feeds, and for bytes that are not UTF-8.
pub(crate) fn push_text(answer: &mut String, text: &[u8]) -> Result<(), AllocError> {
    for chunk in text.utf8_chunks() {
        push_visible(answer, chunk.valid())?;
        push_bytes(answer, chunk.invalid())?;
    }
    Ok(())
}
