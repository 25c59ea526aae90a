//! Words for what a walk finds, in which tests write their expected results. Most are words that `lc count` prints. Directories of rule
//! files, kinds of entries, and names that are not UTF-8 are written in another way.

use lc_census::Eol;
use lc_level::{FaultLine, Reason, SkippedLine};
use lc_rules::{RuleSource, TextState};
use lc_tree::{Kind, OtherKind};
use std::alloc::AllocError;

const TEXT_STATES: &[TextState] = &[
    TextState::Set,
    TextState::Unset,
    TextState::Auto,
    TextState::Other,
];

const LINE_ENDS: &[Eol] = &[Eol::Lf, Eol::CrLf, Eol::Cr, Eol::Mixed, Eol::Nul];

/// Returns the state of the attribute `text` that a word names, such as `auto`.
pub fn text_of_word(word: &str) -> TextState {
    let mut states = TEXT_STATES
        .iter()
        .filter(|state| state.word() == Some(word));
    states.next().copied().unwrap_or(TextState::Unspecified)
}

/// Returns the line ends that a word names, such as `crlf`.
pub fn eol_of_word(word: &str) -> Eol {
    let mut ends = LINE_ENDS.iter().filter(|eol| eol.as_str() == word);
    ends.next().copied().unwrap_or(Eol::NoEnd)
}

/// Appends a name or a path to a text. The empty path is written as `.`, and bytes that are not UTF-8 as a list of numbers.
pub fn push_name(text: &mut String, name: &[u8]) -> Result<(), AllocError> {
    if name.is_empty() {
        return text.push_str(".");
    }
    match str::from_utf8(name) {
        Ok(name) => text.push_str(name),
        Err(_) => write!(text, "{name:?}"),
    }
}

/// Appends to a text the mark that follows an entry's name and shows the entry's kind.
pub fn push_kind(text: &mut String, kind: Kind) -> Result<(), AllocError> {
    match kind {
        Kind::Dir => text.push_str("/"),
        Kind::File => Ok(()),
        Kind::Other(OtherKind::Special) => text.push_str("@"),
        Kind::Other(OtherKind::Mounted) => text.push_str("@/"),
    }
}

/// Appends the name of a rule's file to a text, after a `*/` for each directory above the file.
fn push_source(text: &mut String, source: RuleSource) -> Result<(), AllocError> {
    let (depth, name) = match source {
        RuleSource::ExcludeFrom => (0, "--exclude-from"),
        RuleSource::InfoExclude(depth) => (depth, ".git/info/exclude"),
        RuleSource::Gitignore(depth) => (depth, ".gitignore"),
        RuleSource::CommandLine => (0, "--exclude"),
    };
    for _ in 0..depth {
        text.push_str("*/")?;
    }
    text.push_str(name)
}

/// Appends to a text the reason for which an entry is skipped.
pub fn push_reason(text: &mut String, reason: &Reason) -> Result<(), AllocError> {
    match reason {
        Reason::Git => text.push_str("git"),
        Reason::Rule { source, line } => {
            text.push_str("rule ")?;
            push_source(text, *source)?;
            write!(text, ":{line}")
        }
        Reason::Attribute(word) => {
            text.push_str("attribute ")?;
            push_name(text, word)
        }
        Reason::NotIncluded => text.push_str("include"),
        Reason::OtherKind(OtherKind::Special) => text.push_str("other"),
        Reason::OtherKind(OtherKind::Mounted) => text.push_str("filesystem"),
    }
}

/// Appends a line for each skipped entry: `left`, the reason, and the entry's path with the mark of its kind.
pub fn push_skipped(text: &mut String, skipped: &[SkippedLine]) -> Result<(), AllocError> {
    for entry in skipped {
        text.push_str("left ")?;
        push_reason(text, &entry.reason)?;
        text.push_str(" ")?;
        push_name(text, &entry.path)?;
        push_kind(text, entry.kind)?;
        text.push_str("\n")?;
    }
    Ok(())
}

/// Appends a line for each error: `fault`, the word for the error, and its path.
pub fn push_faults(text: &mut String, faults: &[FaultLine]) -> Result<(), AllocError> {
    for fault in faults {
        let word = fault.word.as_str();
        write!(text, "fault {word} ")?;
        push_name(text, &fault.path)?;
        text.push_str("\n")?;
    }
    Ok(())
}

/// Splits a text at its first `|`. Returns both parts without the spaces around them.
pub fn cut(text: &str) -> (&str, &str) {
    let (first, rest) = text.split_once('|').unwrap_or((text, ""));
    (first.trim(), rest.trim())
}

fn without_comma(word: &str) -> &str {
    word.strip_suffix(',').unwrap_or(word)
}

/// Returns whether both texts have the same words in the same order. Spaces and line ends separate words, and a comma after a word is not a
/// part of it.
pub fn has_words(found: &str, wanted: &str) -> bool {
    let mut words = found.split_ascii_whitespace();
    for wanted in wanted.split_ascii_whitespace() {
        match words.next() {
            Some(word) if without_comma(word) == without_comma(wanted) => {}
            _ => return false,
        }
    }
    words.next().is_none()
}
