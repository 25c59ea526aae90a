//! The lines on standard error about patterns that can match nothing.

ghost use Rattle.std.specs.Prelude.{◌≡◌, string_bytes, IfOk};
ghost use Rattle.lc_program.specs.Unmatched.{unmatched_line, unmatched_lines, unmatched_of, unmatched_text};

use lc_arguments::FilterRequest;
use lc_rules::can_match;
use lc_text::push_visible;
use std::alloc::{AllocError, Global};

fn unmatched_line(alloc: Global, pattern: &str) -> Result<String, AllocError>
    ensures { IfOk result (λ text. string_bytes text ≡ unmatched_line pattern.now) }
{
    let mut text = String::from_str(alloc, "lc: pattern '")?;
    push_visible(&mut text, pattern.as_bytes())?;
    text.push_str("' can match nothing\n")?;
    Ok(text)
}

/// Makes the line about a pattern that can match nothing. The line is empty for any other pattern.
fn unmatched_text(alloc: Global, pattern: &str) -> Result<String, AllocError>
    ensures { IfOk result (λ text. string_bytes text ≡ unmatched_text pattern.now) }
{
    if can_match(alloc, pattern.as_bytes())? {
        Ok(String::new(alloc))
    } else {
        unmatched_line(alloc, pattern)
    }
}

/// Makes a line for each of these patterns that can match nothing.
fn unmatched_lines(alloc: Global, patterns: &[&str]) -> Result<String, AllocError>
    ensures { IfOk result (λ text. string_bytes text ≡ unmatched_lines patterns.now) }
{
    let mut text = String::new(alloc);
    for pattern in patterns {
        let line = unmatched_text(alloc, pattern)?;
        text.push_str(&line)?;
    }
    Ok(text)
}

/// Makes a line for each pattern of `--exclude` and `--include` that can match nothing.
pub(crate) fn unmatched_of(alloc: Global, asked: &FilterRequest<'_>) -> Result<String, AllocError>
    ensures { IfOk result (λ text. string_bytes text ≡ unmatched_of asked.now) }
{
    let mut text = unmatched_lines(alloc, &asked.exclude)?;
    let included = unmatched_lines(alloc, &asked.include)?;
    text.push_str(&included)?;
    Ok(text)
}
