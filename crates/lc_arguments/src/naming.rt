//! Checks that the help of a command names each of its arguments, and that a usage error names an argument. No contract describes clap's
//! texts, so the program checks the texts before it writes them.

ghost use Rattle.std.specs.Prelude.{◌≡◌, ◌++◌, IfOk, OnOk, codes, map, string_bytes, true};
ghost use Rattle.std.specs.Str.Iter.{HasSubslice};
ghost use Rattle.lc_arguments.specs.Naming.{IsNamingError, IsTextOf, Names, NamesAll, NamesSome, QuotesSome};
ghost use Rattle.lc_arguments.specs.Naming.{mark_after, mark_before, named_command};
ghost use Rattle.lc_arguments.specs.Options.{option_model};
ghost use Rattle.lc_text.specs.Visible.{visible_bytes};

use crate::error_text::problem_of;
use crate::first_word::asked;
use crate::option_row::{Kind, OptionRow, Subcommand};
use crate::options_table::options;
use lc_text::push_visible;
use std::alloc::{AllocError, Global};
use std::convert::AsStr;

/// Returns what a message of clap has before and after the name of an argument, such as `<` and `>`.
fn marks(kind: Kind) -> (&'static str, &'static str)
    ensures before { result.0.now ≡ mark_before kind }
    ensures after { result.1.now ≡ mark_after kind }
{
    match kind {
        Kind::Flag | Kind::Text | Kind::Texts | Kind::Number(_) | Kind::Range(_) => ("--", ""),
        Kind::Word => ("<", ">"),
        Kind::Words => ("[", "]"),
    }
}

/// Returns whether a text contains a part.
fn has(text: &str, part: &str) -> bool
    ensures { result ≡ true → HasSubslice text.now part.now }
{
    text.contains(part)
}

/// Returns whether a text has the name of an argument as clap writes it, such as `--top` or `<FILE>`.
fn names(alloc: Global, text: &str, row: &OptionRow) -> Result<bool, AllocError>
    ensures { IfOk result (λ named. named ≡ true → Names text.now (option_model row.now)) }
{
    let (before, after) = marks(row.kind);
    let mut marked = String::from_str(alloc, before)?;
    marked.push_str(row.name)?;
    marked.push_str(after)?;
    Ok(has(text, marked.as_str()))
}

/// Returns whether a text names each argument of a command.
fn names_all(
    alloc: Global,
    text: &str,
    command: Subcommand,
    rows: &[OptionRow],
) -> Result<bool, AllocError>
    ensures { IfOk result (λ named. named ≡ true → NamesAll command (map option_model rows.now) text.now) }
{
    let mut rest = rows;
    'rows: while let Some((row, others)) = rest.split_first() {
        if row.of.has(command) && !names(alloc, text, row)? {
            return Ok(false);
        }
        rest = others;
    }
    Ok(true)
}

/// Returns whether a text names one of these arguments. Arguments of the kind `Words` do not count: they are in each usage line, so their
/// names do not show what is wrong.
fn names_some(alloc: Global, text: &str, rows: &[OptionRow]) -> Result<bool, AllocError>
    ensures { IfOk result (λ named. named ≡ true → NamesSome (map option_model rows.now) text.now) }
{
    let mut rest = rows;
    'rows: while let Some((row, others)) = rest.split_first() {
        if !matches!(row.kind, Kind::Words) && names(alloc, text, row)? {
            return Ok(true);
        }
        rest = others;
    }
    Ok(false)
}

fn push_in_quotes(text: &mut String, word: &str) -> Result<(), AllocError>
    ensures { OnOk result (string_bytes text.new ≡ string_bytes text.old ++ (codes "'" ++ (visible_bytes word.now ++ codes "'"))) }
{
    text.push_str("'")?;
    push_visible(text, word.as_bytes())?;
    text.push_str("'")
}

fn quotes(alloc: Global, text: &str, word: &str) -> Result<bool, AllocError>
    ensures { IfOk result (λ quoted. quoted ≡ true → HasSubslice text.now (codes "'" ++ (visible_bytes word.now ++ codes "'"))) }
{
    let mut part = String::new(alloc);
    push_in_quotes(&mut part, word)?;
    Ok(has(text, part.as_str()))
}

/// Returns whether a text has one of these words in quotes.
fn quotes_some<W: AsStr>(alloc: Global, text: &str, words: &[W]) -> Result<bool, AllocError>
    ensures { IfOk result (λ quoted. quoted ≡ true → QuotesSome (map W.text words.now) text.now) }
{
    let mut rest = words;
    'words: while let Some((word, others)) = rest.split_first() {
        if quotes(alloc, text, word.as_str())? {
            return Ok(true);
        }
        rest = others;
    }
    Ok(false)
}

/// Returns whether the first paragraph of a usage error has one of the typed arguments `words` in quotes, or names an argument of the table
/// of options.
pub(crate) fn is_naming_error<W: AsStr>(
    alloc: Global,
    text: &str,
    words: &[W],
) -> Result<bool, AllocError>
    ensures { IfOk result (λ named. named ≡ true → IsNamingError (map W.text words.now) text.now) }
{
    let problem = problem_of(text);
    let quoted = quotes_some(alloc, problem, words)?;
    if quoted {
        return Ok(true);
    }
    names_some(alloc, problem, options())
}

/// Adds all typed arguments, each in quotes, to the first paragraph of a usage error.
pub(crate) fn with_words<W: AsStr>(
    alloc: Global,
    text: &str,
    words: &[W],
) -> Result<String, AllocError> {
    let (problem, rest) = text.split_once("\n\n").unwrap_or((text, ""));
    let mut more = String::from_str(alloc, problem)?;
    more.push_str("\n  arguments:")?;
    for word in words {
        more.push_str(" ")?;
        push_in_quotes(&mut more, word.as_str())?;
    }
    more.push_str("\n\n")?;
    more.push_str(rest)?;
    Ok(more)
}

/// Returns whether a text names each argument of a command, as the help of that command does. The command is the one that the arguments
/// `words` name. If they name no command, the text must name `lc`.
pub(crate) fn is_text_of<W: AsStr>(
    alloc: Global,
    text: &str,
    words: &[W],
) -> Result<bool, AllocError>
    ensures { IfOk result (λ named. named ≡ true → IsTextOf (named_command (map W.text words.now)) text.now) }
{
    match asked(words).0 {
        None => Ok(has(text, "lc")),
        Some(command) => names_all(alloc, text, command, options()),
    }
}
