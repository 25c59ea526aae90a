//! The lines on standard error about patterns of `--include` that may mean something else, where no file is counted.

ghost use Rattle.std.specs.Prelude.{◌≡◌, map, string_bytes, IfOk};
ghost use Rattle.std.specs.Char.{is_ascii_alphanumeric};
ghost use Rattle.std.specs.List.{list_all};
ghost use Rattle.lc_program.specs.Meant.{extension_line, has_braces, is_extension, meant_if, meant_line, meant_lines};

use lc_text::push_visible;
use std::alloc::{AllocError, Global};

fn are_alphanumeric(bytes: &[u8]) -> bool
    ensures { result ≡ list_all is_ascii_alphanumeric bytes.now }
{
    bytes.iter().all(|byte| byte.is_ascii_alphanumeric())
}

/// Returns whether a pattern is an extension, such as `.c`. As a pattern it matches only a file of this name.
fn is_extension(pattern: &[u8]) -> bool
    ensures { result ≡ is_extension pattern.now }
{
    match pattern.split_first() {
        Some((b'.', rest)) => !rest.is_empty() && are_alphanumeric(rest),
        _ => false,
    }
}

/// Returns whether a pattern has braces and a comma, as a shell's `{a,b}` has. In a pattern they stand for themselves.
fn has_braces(pattern: &[u8]) -> bool
    ensures { result ≡ has_braces pattern.now }
{
    pattern.contains(&b'{') && pattern.contains(&b',') && pattern.contains(&b'}')
}

fn extension_line(alloc: Global, pattern: &str) -> Result<String, AllocError>
    ensures { IfOk result (λ line. string_bytes line ≡ extension_line pattern.now) }
{
    let mut line = String::from_str(alloc, "lc: for files with the extension ")?;
    line.push_str(pattern)?;
    line.push_str(" use --include '*")?;
    line.push_str(pattern)?;
    line.push_str("'\n")?;
    Ok(line)
}

/// Makes the line about a pattern that may mean something else, or nothing.
fn meant_line(alloc: Global, pattern: &str) -> Result<String, AllocError>
    ensures { IfOk result (λ line. string_bytes line ≡ meant_line pattern.now) }
{
    if is_extension(pattern.as_bytes()) {
        return extension_line(alloc, pattern);
    }
    if !has_braces(pattern.as_bytes()) {
        return Ok(String::new(alloc));
    }
    String::from_str(
        alloc,
        "lc: braces in a pattern stand for themselves: repeat --include\n",
    )
}

/// Makes the lines about these patterns.
fn meant_lines(alloc: Global, patterns: &[&str]) -> Result<String, AllocError>
    ensures { IfOk result (λ text. string_bytes text ≡ meant_lines (map (λ pattern. pattern.now) patterns.now)) }
{
    let mut text = String::new(alloc);
    for pattern in patterns {
        let line = meant_line(alloc, pattern)?;
        text.push_str(&line)?;
    }
    Ok(text)
}

/// Makes the lines about the patterns of `--include` of a count with this number of files. There are none if a file is counted.
pub(crate) fn meant_if(alloc: Global, files: u64, patterns: &[&str]) -> Result<String, AllocError>
    ensures { IfOk result (λ text. string_bytes text ≡ meant_if files (map (λ pattern. pattern.now) patterns.now)) }
{
    if files == 0 {
        meant_lines(alloc, patterns)
    } else {
        Ok(String::new(alloc))
    }
}
