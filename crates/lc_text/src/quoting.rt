//! Quoting arguments for a shell.

ghost use Rattle.std.specs.Prelude.{◌≡◌, ◌++◌, OnOk, encode_utf8, flat_map, string_bytes};
ghost use Rattle.std.specs.List.{list_all};
ghost use Rattle.lc_text.specs.Quoting.{is_plain_word, is_shell_plain, quote_byte, quoted};

use std::alloc::AllocError;

fn is_shell_plain(b: u8) -> bool
    ensures { result ≡ is_shell_plain b }
{
    matches!(b, b'a'..=b'z' | b'A'..=b'Z' | b'0'..=b'9') || b"_./:=@%+,-".contains(&b)
}

fn are_shell_plain(word: &[u8]) -> bool
    ensures { result ≡ list_all is_shell_plain word.now }
{
    word.iter().all(|b| is_shell_plain(*b))
}

/// Returns whether a shell takes a word as it is. In zsh a word that begins with `=` is the path of a command.
fn is_plain_word(word: &[u8]) -> bool
    ensures { result ≡ is_plain_word word.now }
{
    match word.split_first() {
        None => false,
        Some((first, _)) => are_shell_plain(word) && *first != b'=',
    }
}

/// Appends a character as it is written inside single quotes.
fn push_quoted_char(text: &mut String, c: char) -> Result<(), AllocError>
    ensures { OnOk result (string_bytes text.new ≡ string_bytes text.old ++ flat_map quote_byte (encode_utf8 c)) }
{
    if c == '\'' {
        text.push_str("'\\''")
    } else {
        text.push(c)
    }
}

fn push_each_quoted(text: &mut String, word: &str) -> Result<(), AllocError>
    ensures { OnOk result (string_bytes text.new ≡ string_bytes text.old ++ flat_map quote_byte word.now) }
{
    for c in word.chars() {
        push_quoted_char(text, c)?;
    }
    Ok(())
}

/// Appends a text as one argument of a POSIX shell: as it is if that is safe, otherwise in single quotes.
///
/// ```
/// push_quoted(&mut text, "it's")?;
/// assert!(rt; text.as_str() == "'it'\\''s'");
/// ```
pub fn push_quoted(text: &mut String, word: &str) -> Result<(), AllocError>
    ensures { OnOk result (string_bytes text.new ≡ string_bytes text.old ++ quoted word.now) }
{
    if is_plain_word(word.as_bytes()) {
        return text.push_str(word);
    }
    text.push_str("'")?;
    push_each_quoted(text, word)?;
    text.push_str("'")
}
