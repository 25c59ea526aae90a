//! The texts of usage errors.

ghost use Rattle.lc_arguments.specs.Naming.{IsFirstParagraph};

use crate::near::near_name;
use crate::option_row::{Completes, Kind, OptionRow};
use crate::options_table::options;
use crate::suggestions::Advice;
use std::alloc::{AllocError, Global};

/// Returns the first paragraph of clap's text, which says what is wrong with the arguments.
pub(crate) fn problem_of(text: &str) -> &str
    ensures { IsFirstParagraph text.now result.now }
{
    match text.split_once("\n\n") {
        Some((problem, _)) => problem,
        None => text,
    }
}

/// Makes the text of a usage error with our advice instead of clap's.
pub(crate) fn advised(
    alloc: Global,
    problem: &str,
    usage: &str,
    advice: &Advice,
) -> Result<String, AllocError> {
    let mut text = String::from_str(alloc, problem)?;
    if let Some(tip) = &advice.tip {
        write!(text, "\n\n  tip: {tip}")?;
    }
    let example = &advice.example;
    write!(
        text,
        "\n\nUsage: {usage}\n\nFor more information, try '--help'.\n\n{example}\n"
    )?;
    Ok(text)
}

/// Returns the name that help shows for an option's value, such as `FILE`, and what completes the value.
fn value_named(option: &str) -> (&'static str, Completes) {
    for row in options() {
        if row.name == option {
            return (row.value, row.completes);
        }
    }
    ("", Completes::Nothing)
}

/// Makes the text that refuses a value of an option. `option` is the option's name without its hyphens.
///
/// ```
/// let text = value_refused(rt.alloc(), "by", "x", ": no column")?;
/// assert!(rt; text.starts_with("error: invalid value 'x' for '--by <COLUMNS>': no column\n"));
/// ```
pub(crate) fn value_refused(
    alloc: Global,
    option: &str,
    value: &str,
    why: &str,
) -> Result<String, AllocError> {
    let (name, completes) = value_named(option);
    let mut text = format!(in alloc;
        "error: invalid value '{value}' for '--{option} <{name}>'{why}"
    )?;
    if let Completes::Meanings(words) = completes {
        let mut before = "\n  [possible values: ";
        for (word, _) in words {
            write!(text, "{before}{word}")?;
            before = ", ";
        }
        text.push_str("]")?;
    }
    push_meant(&mut text, alloc, option, value, completes)?;
    text.push_str("\n\nFor more information, try '--help'.\n")?;
    Ok(text)
}

/// Options, values that people type for them, and what to write instead.
const MEANT: &[(&str, &str, &str)] = &[
    ("by", "directory", "--by dir"),
    ("by", "directories", "--by dir"),
    ("by", "dirs", "--by dir"),
    ("by", "folder", "--by dir"),
    ("by", "extension", "--by ext"),
    ("by", "extensions", "--by ext"),
    ("by", "language", "--by lang"),
    ("by", "languages", "--by lang"),
    ("by", "file", "--files"),
    ("by", "files", "--files"),
    ("format", "md", "--format markdown"),
    ("format", "text", "--format table"),
    ("format", "txt", "--format table"),
    ("format", "plain", "--format tsv"),
    ("format", "yaml", "--format json"),
    ("sort", "code", "--sort lines"),
    ("sort", "loc", "--sort lines"),
    ("sort", "size", "--sort bytes"),
    ("sort", "path", "--sort name"),
];

/// Appends a tip if the value of an option is a word for another value, or close to one of the possible values.
fn push_meant(
    text: &mut String,
    alloc: Global,
    option: &str,
    value: &str,
    completes: Completes,
) -> Result<(), AllocError> {
    for (name, word, meant) in MEANT {
        if option == *name && value == *word {
            return write!(text, "\n\n  tip: write '{meant}'");
        }
    }
    if let Completes::Meanings(words) = completes {
        if let Some((near, _)) = near_name(alloc, value, words)? {
            write!(text, "\n\n  tip: write '--{option} {near}'")?;
        }
    }
    Ok(())
}

/// Makes the text that refuses a value of an option whose values are the numbers from 1 to `most`.
///
/// ```
/// let text = number_refused(rt.alloc(), "top", "x", 9)?;
/// assert!(rt; text.starts_with("error: invalid value for '--top <N>': 'x' is no number from 1 to 9\n"));
/// ```
pub(crate) fn number_refused(
    alloc: Global,
    option: &str,
    value: &str,
    most: u32,
) -> Result<String, AllocError> {
    let (name, _) = value_named(option);
    format!(in alloc;
        "error: invalid value for '--{option} <{name}>': '{value}' is no number from 1 to {most}\n\nFor more information, try '--help'.\n"
    )
}

/// Returns the value that clap's message `problem` refuses, if it is a value of this option.
fn value_of<'t>(
    alloc: Global,
    problem: &'t str,
    option: &OptionRow,
) -> Result<Option<&'t str>, AllocError> {
    let end = format!(in alloc; "' for '--{} <{}>': ", option.name, option.value)?;
    match problem.rsplit_once(end.as_str()) {
        Some((start, _)) => Ok(start.strip_prefix("error: invalid value '")),
        None => Ok(None),
    }
}

/// Makes the text that refuses a number from the text in which clap refuses it. A text that refuses no number is copied.
pub(crate) fn range_refused(alloc: Global, text: &str) -> Result<String, AllocError> {
    for row in options() {
        if let Kind::Range(most) = row.kind {
            if let Some(value) = value_of(alloc, problem_of(text), row)? {
                return number_refused(alloc, row.name, value, most);
            }
        }
    }
    String::from_str(alloc, text)
}
