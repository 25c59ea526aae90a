//! Cases as text: what a program reads that prints each case of its input with an answer.
//!
//! A case is a line such as `matches | *.o | a.o | a.c`: a kind, which says what is tested, and columns. In a column `\n`, `\r`, `\t`, `\0`
//! and `\xNN` mean one byte, as in Rust, and once in a column `\{3 ab}` means `ababab`. A backslash before any other byte is dropped. A
//! line that is empty or begins with `#` or a space is no case.

use std::alloc::{AllocError, Global};

/// What a function returns that appends to a text.
pub type Pushed = Result<(), AllocError>;

/// Returns the kind of a case, or `None` if the line is no case.
pub fn kind_of(line: &str) -> Option<&str> {
    if line.is_empty() || line.starts_with('#') || line.starts_with(' ') {
        return None;
    }
    let (kind, _) = line.split_once('|').unwrap_or((line, ""));
    Some(kind.trim())
}

fn digit(byte: u8) -> u8 {
    match byte {
        b'0'..=b'9' => byte - b'0',
        b'a'..=b'f' => byte - b'a' + 10,
        _ => 0,
    }
}

/// Returns the first byte of a column, and the rest of the column.
fn first<'a>(column: &'a [u8]) -> Option<(u8, &'a [u8])> {
    match column {
        [b'\\', b'n', rest @ ..] => Some((b'\n', rest)),
        [b'\\', b'r', rest @ ..] => Some((b'\r', rest)),
        [b'\\', b't', rest @ ..] => Some((b'\t', rest)),
        [b'\\', b'0', rest @ ..] => Some((0, rest)),
        [b'\\', b'x', high, low, rest @ ..] => Some((digit(*high) << 4 | digit(*low), rest)),
        [b'\\', byte, rest @ ..] => Some((*byte, rest)),
        [byte, rest @ ..] => Some((*byte, rest)),
        [] => None,
    }
}

/// Appends a part of a column, with a byte in place of each escape.
fn push_unescaped(bytes: &mut Vec<u8>, part: &str) -> Pushed {
    let mut left = part.as_bytes();
    for _ in 0..part.len() {
        let Some((byte, rest)) = first(left) else {
            break;
        };
        bytes.push(byte)?;
        left = rest;
    }
    Ok(())
}

/// Returns the bytes that a column means.
pub fn bytes_of(alloc: Global, column: &str) -> Result<Vec<u8>, AllocError> {
    let (before, repeated) = column.split_once("\\{").unwrap_or((column, ""));
    let (repeated, after) = repeated.split_once('}').unwrap_or((repeated, ""));
    let (times, unit) = repeated.split_once(' ').unwrap_or(("", ""));
    let mut unit_bytes = Vec::new(alloc);
    push_unescaped(&mut unit_bytes, unit)?;
    let mut bytes = Vec::new(alloc);
    push_unescaped(&mut bytes, before)?;
    for _ in 0..times.parse::<usize>().unwrap_or(0) {
        bytes.extend_from_slice(&unit_bytes)?;
    }
    push_unescaped(&mut bytes, after)?;
    Ok(bytes)
}

/// Returns the bytes of each column of a case, after its kind. Spaces around a column are no part of it.
pub fn columns_of(alloc: Global, line: &str) -> Result<Vec<Vec<u8>>, AllocError> {
    let mut columns = Vec::new(alloc);
    for column in line.split('|').skip(1) {
        columns.push(bytes_of(alloc, column.trim())?)?;
    }
    Ok(columns)
}

/// Borrows each column.
pub fn slices_of<'a>(alloc: Global, columns: &'a [Vec<u8>]) -> Result<Vec<&'a [u8]>, AllocError> {
    let mut slices = Vec::with_capacity(alloc, columns.len())?;
    for column in columns {
        slices.push(column.as_slice())?;
    }
    Ok(slices)
}

/// Returns a column as text, or `?` if it is not UTF-8.
pub fn text_of(column: &[u8]) -> &str {
    str::from_utf8(column).unwrap_or("?")
}

/// Returns the number that a column has, or 0 if it has none.
pub fn number_of(column: &[u8]) -> usize {
    text_of(column).parse::<usize>().unwrap_or(0)
}

/// Returns the word for an answer: `yes` or `no`.
pub fn yes_no(answer: bool) -> &'static str {
    if answer { "yes" } else { "no" }
}

/// Appends each word that comes with `true`.
pub fn push_words(answer: &mut String, words: &[(bool, &str)]) -> Pushed {
    for (holds, word) in words {
        if *holds {
            answer.push_str(word)?;
        }
    }
    Ok(())
}

/// Appends bytes to an answer, with the escapes of a column for a backslash and for all bytes that are not printable ASCII.
pub fn push_bytes(answer: &mut String, bytes: &[u8]) -> Pushed {
    for byte in bytes {
        match *byte {
            b'\n' => answer.push_str("\\n")?,
            b'\\' => answer.push_str("\\\\")?,
            b' '..=b'~' => answer.push(char::from(*byte))?,
            other => write!(answer, "\\x{other:02x}")?,
        }
    }
    Ok(())
}

/// Returns a case with its answer, as a program prints them: on one line, or, if the answer ends a line, with each line of the answer on a
/// line of its own, after four spaces.
pub fn answered(alloc: Global, case: &str, answer: &str) -> Result<String, AllocError> {
    let mut text = format!(in alloc; "{case} =>")?;
    let before = if answer.contains('\n') { "\n    " } else { " " };
    for line in answer.lines() {
        text.push_str(before)?;
        text.push_str(line)?;
    }
    Ok(text)
}

/// Returns whether a text begins with a case and this answer, as `answered` returns them.
pub fn begins_with(text: &str, answered: &str) -> bool {
    match text.strip_prefix(answered) {
        Some(rest) => rest.is_empty() || rest.starts_with('\n') && !rest.starts_with("\n    "),
        None => false,
    }
}
