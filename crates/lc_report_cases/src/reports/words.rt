//! The words in a line of a report: numbers, paths, and what files and entries have.

use lc_census::Count;
use lc_level::{AttributeState, FaultWord, FileAttributes, Reason};
use lc_rules::RuleSource;
use lc_tests::cases::bytes_of;
use lc_tests::{eol_of_word, text_of_word};
use lc_tree::{Kind, OtherKind};
use lc_walk::{FaultLine, FileLine, SkippedLine, Sums, TallyRow};
use std::alloc::{AllocError, Global};
use std::str::SplitAsciiWhitespace;
use std::sync::Arc;

const FAULT_WORDS: &[FaultWord] = &[
    FaultWord::Absent,
    FaultWord::Endless,
    FaultWord::Long,
    FaultWord::Many,
    FaultWord::Name,
    FaultWord::Twice,
];

pub(super) fn next<'a>(words: &mut SplitAsciiWhitespace<'a>) -> &'a str {
    words.next().unwrap_or("-")
}

/// Returns the number that a word means. The word `max` means the largest number.
pub(super) fn small_number(words: &mut SplitAsciiWhitespace<'_>) -> u64 {
    match next(words) {
        "max" => u64::MAX,
        word => word.parse::<u64>().unwrap_or(0),
    }
}

fn number(words: &mut SplitAsciiWhitespace<'_>) -> u128 {
    match next(words) {
        "max" => u128::MAX,
        word => word.parse::<u128>().unwrap_or(0),
    }
}

/// Returns the path that a word means. A dot means the empty path of the top.
fn path_of(alloc: Global, word: &str) -> Result<Vec<u8>, AllocError> {
    bytes_of(alloc, if word == "." { "" } else { word })
}

pub(super) fn sums(words: &mut SplitAsciiWhitespace<'_>) -> Sums {
    Sums {
        files: small_number(words),
        lines: number(words),
        blank: number(words),
        bytes: number(words),
    }
}

pub(super) fn row(
    alloc: Global,
    words: &mut SplitAsciiWhitespace<'_>,
) -> Result<TallyRow, AllocError> {
    let ext = match next(words).strip_prefix('.') {
        Some(ext) => Some(bytes_of(alloc, ext)?),
        None => None,
    };
    let text = text_of_word(next(words));
    let eol = eol_of_word(next(words));
    let sums = sums(words);
    Ok(TallyRow {
        ext,
        text,
        eol,
        files: sums.files,
        lines: sums.lines,
        blank: sums.blank,
        bytes: sums.bytes,
    })
}

/// Returns the state that a word means: `set`, `unset`, a value after an equals sign, or unspecified.
fn state(alloc: Global, word: &str) -> Result<AttributeState, AllocError> {
    match (word, word.strip_prefix('=')) {
        ("set", _) => Ok(AttributeState::Set),
        ("unset", _) => Ok(AttributeState::Unset),
        (_, Some(value)) => Ok(AttributeState::Value(bytes_of(alloc, value)?)),
        _ => Ok(AttributeState::Unspecified),
    }
}

fn states(
    alloc: Global,
    words: &mut SplitAsciiWhitespace<'_>,
) -> Result<Vec<AttributeState>, AllocError> {
    let mut states = Vec::new(alloc);
    for word in words {
        states.push(state(alloc, word)?)?;
    }
    Ok(states)
}

pub(super) fn file(
    alloc: Global,
    words: &mut SplitAsciiWhitespace<'_>,
) -> Result<FileLine, AllocError> {
    let text = text_of_word(next(words));
    let eol = eol_of_word(next(words));
    let count = Count {
        lines: small_number(words),
        blank: small_number(words),
        bytes: small_number(words),
        eol,
    };
    let path = path_of(alloc, next(words))?;
    let asked = states(alloc, words)?;
    let attributes = Arc::new(alloc, FileAttributes { text, asked })?;
    Ok(FileLine {
        path,
        attributes,
        count,
    })
}

pub(super) fn fault(
    alloc: Global,
    words: &mut SplitAsciiWhitespace<'_>,
) -> Result<FaultLine, AllocError> {
    let name = next(words);
    let mut found = FAULT_WORDS.iter().filter(|word| word.as_str() == name);
    let word = found.next().copied().unwrap_or(FaultWord::Read);
    let path = path_of(alloc, next(words))?;
    Ok(FaultLine { path, word })
}

/// Returns the number of slashes in a path: the depth of the directory that has the path's last segment.
fn depth_of(path: &str) -> u32 {
    let slashes = path.bytes().filter(|byte| *byte == b'/').count();
    u32::try_from(slashes).unwrap_or(0)
}

fn source_of(file: &str) -> RuleSource {
    if file == "--exclude" {
        return RuleSource::CommandLine;
    }
    if file == "--exclude-from" {
        return RuleSource::ExcludeFrom;
    }
    match file.strip_suffix(".git/info/exclude") {
        Some(directory) => RuleSource::InfoExclude(depth_of(directory)),
        None => RuleSource::Gitignore(depth_of(file)),
    }
}

/// Returns the reason of an entry that is skipped by the rule at this place, such as `src/.gitignore:3`.
fn rule_at(place: &str) -> Reason {
    let (file, line) = place.rsplit_once(':').unwrap_or((place, "0"));
    Reason::Rule {
        source: source_of(file),
        line: line.parse::<u32>().unwrap_or(0),
    }
}

fn reason(alloc: Global, words: &mut SplitAsciiWhitespace<'_>) -> Result<Reason, AllocError> {
    match next(words) {
        "rule" => Ok(rule_at(next(words))),
        "attribute" => Ok(Reason::Attribute(bytes_of(alloc, next(words))?)),
        "include" => Ok(Reason::NotIncluded),
        "other" => Ok(Reason::OtherKind(OtherKind::Special)),
        "filesystem" => Ok(Reason::OtherKind(OtherKind::Mounted)),
        _ => Ok(Reason::Git),
    }
}

/// Splits a word into a path and the kind of the entry. The end of the word shows the kind: `@/`, `@`, `/`, or none of these for a file.
fn path_and_kind(word: &str) -> (&str, Kind) {
    if let Some(path) = word.strip_suffix("@/") {
        return (path, Kind::Other(OtherKind::Mounted));
    }
    if let Some(path) = word.strip_suffix('@') {
        return (path, Kind::Other(OtherKind::Special));
    }
    match word.strip_suffix('/') {
        Some(path) => (path, Kind::Dir),
        None => (word, Kind::File),
    }
}

pub(super) fn skipped(
    alloc: Global,
    words: &mut SplitAsciiWhitespace<'_>,
) -> Result<SkippedLine, AllocError> {
    let reason = reason(alloc, words)?;
    let (path, kind) = path_and_kind(next(words));
    let path = path_of(alloc, path)?;
    Ok(SkippedLine { path, kind, reason })
}
