//! Cases of command lines.

use crate::requests::push_request;
use lc_arguments::{ParseExit, Request, count_words, may_be_directory, unslashed};
use lc_sheet::{Columns, Format, Value, needs_files};
use lc_tests::cases::{Pushed, push_bytes, text_of, yes_no};
use std::alloc::{AllocError, Global};

pub(crate) fn push_answer(
    text: &mut String,
    alloc: Global,
    kind: &str,
    columns: &[&[u8]],
) -> Result<bool, AllocError> {
    match (kind, columns) {
        ("args", [line]) => push_args(text, alloc, text_of(line))?,
        ("where", [typed]) => push_where(text, alloc, text_of(typed))?,
        ("holds", [typed, value]) => push_holds(text, alloc, text_of(typed), text_of(value))?,
        ("meant", [line]) => push_meant(text, alloc, text_of(line))?,
        ("table", [format, line]) => push_table(text, alloc, text_of(format), text_of(line))?,
        ("first-words", words) => push_first_words(text, words)?,
        ("unslashed", [directory]) => push_bytes(text, unslashed(text_of(directory)))?,
        _ => return Ok(false),
    }
    Ok(true)
}

/// Splits a line into its words. Quotes around a word are dropped, as a shell drops them.
fn words_of(alloc: Global, line: &str) -> Result<Vec<&str>, AllocError> {
    let mut words = Vec::new(alloc);
    for word in line.split_ascii_whitespace() {
        words.push(word.trim_matches('\''))?;
    }
    Ok(words)
}

/// Appends the request that arguments make, or the text that the program prints instead.
fn push_args(text: &mut String, alloc: Global, line: &str) -> Pushed {
    let words = words_of(alloc, line)?;
    push_request(text, Request::read(alloc, words.as_slice()))
}

/// Appends the request of a count with this condition.
fn push_where(text: &mut String, alloc: Global, typed: &str) -> Pushed {
    let words = ["count", "--where", typed];
    push_request(text, Request::read(alloc, words.as_slice()))
}

fn value_of(word: &str) -> Value<'static> {
    match word {
        "crlf" => Value::Word("crlf"),
        "cr" => Value::Word("cr"),
        "-" => Value::Missing,
        "set" => Value::Flag(true),
        "unset" => Value::Flag(false),
        number => Value::Number(number.parse::<u128>().unwrap_or(0)),
    }
}

/// Appends whether a condition holds for a value, and whether it tests files.
fn push_holds(text: &mut String, alloc: Global, typed: &str, value: &str) -> Pushed {
    let words = ["count", "--where", typed];
    let Ok(Request::Count(request)) = Request::read(alloc, words.as_slice()) else {
        return Err(AllocError);
    };
    let value = value_of(value);
    let holds = request
        .conditions
        .iter()
        .all(|condition| condition.holds(value));
    text.push_str(yes_no(holds))?;
    if needs_files(&request.conditions) {
        text.push_str(", of files")?;
    }
    Ok(())
}

/// Returns whether arguments are refused.
fn are_refused(alloc: Global, line: &str) -> Result<bool, AllocError> {
    let words = words_of(alloc, line)?;
    match Request::read(alloc, words.as_slice()) {
        Err(ParseExit::Memory) => Err(AllocError),
        Err(ParseExit::Refused(_)) => Ok(true),
        _ => Ok(false),
    }
}

/// Appends the last line of a usage error, which suggests a command.
fn push_meant(text: &mut String, alloc: Global, line: &str) -> Pushed {
    let words = words_of(alloc, line)?;
    let why = match Request::read(alloc, words.as_slice()) {
        Err(ParseExit::Refused(why)) => why,
        _ => return Err(AllocError),
    };
    let (_, meant) = why.trim_end().rsplit_once('\n').unwrap_or(("", ""));
    text.push_str(meant)?;
    let (_, command) = meant.split_once("lc ").unwrap_or(("", ""));
    if are_refused(alloc, command)? {
        text.push_str(", which is refused")?;
    }
    Ok(())
}

fn format_of(word: &str) -> Format {
    match word {
        "tsv" => Format::Tsv,
        "csv" => Format::Csv,
        _ => Format::Table,
    }
}

/// Appends what the table of a count shows: whether it lists files, and the column of numbers by which it is sorted. The format applies if
/// the arguments name none.
fn push_table(text: &mut String, alloc: Global, format: &str, line: &str) -> Pushed {
    let words = words_of(alloc, line)?;
    let Ok(Request::Count(request)) = Request::read(alloc, words.as_slice()) else {
        return Err(AllocError);
    };
    let options = request.table.options(format_of(format), Columns::ALL);
    if options.files && request.table.lists_files() {
        text.push_str("files, ")?;
    }
    match options.sort {
        Some(number) => write!(text, "by {number:?}"),
        None => text.push_str("by name"),
    }
}

/// Appends for each word how many words of a line of it and `src` are those of a count, or whether the word may be a directory.
fn push_first_words(text: &mut String, words: &[&[u8]]) -> Pushed {
    for word in words {
        let words = [text_of(word), "src"];
        match count_words(&words) {
            Some(rest) => write!(text, "{} ", rest.len())?,
            None if may_be_directory(&words) => text.push_str("directory ")?,
            None => text.push_str("- ")?,
        }
    }
    Ok(())
}
