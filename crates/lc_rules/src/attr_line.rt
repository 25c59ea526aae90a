//! Reading a line of an attribute file. A line defines a macro, or assigns attributes to the paths that its pattern matches.

ghost use Rattle.std.specs.Prelude.{◌≡◌, IfOk, MatchOption, Some, None};
ghost use Rattle.lc_rules.specs.AttrLines.{as_macro, by_pattern, is_negated, macro_word, by_words, by_quote, trimmed, given_by};
ghost use Rattle.lc_rules.specs.AttrWords.{assigns, words};
ghost use Rattle.lc_rules.specs.AttrQuotes.{unquoted};
ghost use Rattle.lc_rules.specs.Models.{pattern_bytes, seen_halves, seen_line};
ghost use Rattle.lc_rules.specs.WrittenLines.{halves};

use crate::attr_quotes::unquoted;
use crate::attr_words::{are_assignments, is_attribute_name, split_word, word_end};
use std::alloc::{AllocError, Global};

/// The bytes of a line's pattern.
#[derive(Drop)]
pub(crate) enum PatternText<'a> {
    /// The bytes of the pattern as they are in the line.
    Written(&'a [u8]),
    /// The bytes of a quoted pattern, without its quotation marks and with its escapes replaced.
    Unquoted(Vec<u8>),
}

impl<'a> PatternText<'a> {
    pub(crate) fn as_slice(&self) -> &[u8]
        ensures { result.now ≡ pattern_bytes self.now }
    {
        match self {
            PatternText::Written(bytes) => *bytes,
            PatternText::Unquoted(bytes) => bytes.as_slice(),
        }
    }
}

/// A line with a pattern, and the bytes that hold its assignments.
#[derive(Drop)]
pub(crate) struct PatternLine<'a> {
    pub(crate) pattern: PatternText<'a>,
    pub(crate) assignments: &'a [u8],
}

/// A line that defines a macro, and the bytes that hold the macro's assignments.
#[derive(Clone, Copy)]
pub(crate) struct MacroLine<'a> {
    pub(crate) name: &'a [u8],
    pub(crate) assignments: &'a [u8],
}

/// A line of an attribute file that has a meaning.
#[derive(Drop)]
pub(crate) enum AttrLine<'a> {
    Macro(MacroLine<'a>),
    Pattern(PatternLine<'a>),
}

fn read_macro<'a>(name: &'a [u8], assignments: &'a [u8]) -> Option<AttrLine<'a>>
    ensures { seen_line result ≡ as_macro name.now (assigns (words assignments.now)) }
{
    if are_assignments(assignments) && is_attribute_name(name) {
        Some(AttrLine::Macro(MacroLine { name, assignments }))
    } else {
        None
    }
}

fn is_negated(pattern: &[u8]) -> bool
    ensures { result ≡ is_negated pattern.now }
{
    let Some((first, _)) = pattern.split_first() else {
        return false;
    };
    *first == b'!'
}

fn read_pattern_line<'a>(pattern: PatternText<'a>, assignments: &'a [u8]) -> Option<AttrLine<'a>>
    ensures { seen_line result ≡ by_pattern (pattern_bytes pattern.entry) (assigns (words assignments.now)) }
{
    if is_negated(pattern.as_slice()) || !are_assignments(assignments) {
        return None;
    }
    Some(AttrLine::Pattern(PatternLine {
        pattern,
        assignments,
    }))
}

/// Returns the name of the macro that the first word of a line defines, such as `m` for `[attr]m`.
fn macro_word<'a>(word: &'a [u8]) -> Option<&'a [u8]>
    ensures { MatchOption result (macro_word word.now ≡ None) (λ n. macro_word word.now ≡ Some n.now) }
{
    let Some(name) = word.strip_prefix(b"[attr]") else {
        return None;
    };
    if name.is_empty() { None } else { Some(name) }
}

fn read_words<'a>(is_top: bool, line: &'a [u8]) -> Option<AttrLine<'a>>
    ensures { seen_line result ≡ by_words is_top (words line.now) }
{
    let (first, rest) = split_word(line)?;
    let Some(name) = macro_word(first) else {
        return read_pattern_line(PatternText::Written(first), rest);
    };
    if !is_top {
        return None;
    }
    read_macro(name, rest)
}

fn read_quoted<'a>(alloc: Global, bytes: &'a [u8]) -> Result<Option<AttrLine<'a>>, AllocError>
    ensures { IfOk result (λ r. seen_line r ≡ by_quote (unquoted 0 bytes.now)) }
{
    let Some((pattern, rest)) = unquoted(alloc, bytes)? else {
        return Ok(None);
    };
    Ok(read_pattern_line(PatternText::Unquoted(pattern), rest))
}

/// Reads a line that has no white space at its start. A line that defines a macro has a meaning only in a top-level file.
pub(crate) fn read_line<'a>(
    alloc: Global,
    is_top: bool,
    line: &'a [u8],
) -> Result<Option<AttrLine<'a>>, AllocError>
    ensures { IfOk result (λ r. seen_line r ≡ given_by is_top line.now) }
{
    let Some((first, rest)) = line.split_first() else {
        return Ok(None);
    };
    match first {
        b'#' => Ok(None),
        b'"' => read_quoted(alloc, rest),
        _ => Ok(read_words(is_top, line)),
    }
}

/// Splits a line that has a pattern into that pattern and the bytes after it, which hold the assignments.
pub(crate) fn split_line<'a>(
    alloc: Global,
    line: &'a [u8],
) -> Result<Option<PatternLine<'a>>, AllocError>
    ensures { IfOk result (λ r. seen_halves r ≡ halves line.now) }
{
    let Some((first, rest)) = line.split_first() else {
        return Ok(None);
    };
    if *first == b'"' {
        let Some((pattern, assignments)) = unquoted(alloc, rest)? else {
            return Ok(None);
        };
        let pattern = PatternText::Unquoted(pattern);
        return Ok(Some(PatternLine {
            pattern,
            assignments,
        }));
    }
    let end = word_end(line);
    Ok(Some(PatternLine {
        pattern: PatternText::Written(&line[..end]),
        assignments: &line[end..],
    }))
}
