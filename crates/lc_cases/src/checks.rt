//! Cases of checks of paths by the rules of one file, and of explanations of the paths of a tree. The answer is the text that is written.

use lc_glob::cut_at_first;
use lc_level::{Filters, read_rule_text};
use lc_paths::{
    CheckFault, ExplainOptions, Outcome, PathFormat, PathStyle, check_explained, check_joined,
    check_text, explain,
};
use lc_rules::IgnoreFile;
use lc_tests::Asked;
use lc_tests::cases::{push_bytes, text_of};
use lc_text::PathEnd;
use lc_tree::{MemTree, Node};
use std::alloc::{AllocError, Global};

/// Paths that each are a line, printed for a program.
const BY_LINES: PathFormat = PathFormat {
    end: PathEnd::LineFeed,
    style: PathStyle::Escaped,
};

/// The room for what a call writes, in bytes. With it the writer allocates nothing, so a failed allocation does not look like a failed write.
const ROOM: usize = 4_096;

/// Returns the format of paths that a word names: `nul` if a NUL byte ends each path, or `shown` if they are shown in a terminal.
fn format_of(word: &str) -> PathFormat {
    let (end, style) = match word {
        "nul" => (PathEnd::Nul, PathStyle::Escaped),
        "shown" => (PathEnd::LineFeed, PathStyle::Visible),
        _ => (BY_LINES.end, BY_LINES.style),
    };
    PathFormat { end, style }
}

pub(crate) fn push_answer(
    text: &mut String,
    alloc: Global,
    top: &Node,
    kind: &str,
    columns: &[&[u8]],
) -> Result<bool, AllocError> {
    let (call, form) = kind.split_once('-').unwrap_or((kind, ""));
    let format = format_of(form);
    match (call, columns) {
        ("check", [joined]) => push_checked(text, alloc, format, joined)?,
        ("told", [name, rules, paths]) => push_told(text, alloc, format, name, rules, paths)?,
        ("word", [rules, path]) => push_word(text, alloc, rules, path)?,
        ("explain", [asked, paths]) => {
            push_explained(text, alloc, top, format.style, text_of(asked), paths)?
        }
        _ => return Ok(false),
    }
    Ok(true)
}

/// Appends what a call wrote, with tabs and line ends as they are, and the error with which the call ended.
fn push_written(
    text: &mut String,
    written: &[u8],
    end: Result<(), CheckFault>,
) -> Result<(), AllocError> {
    for piece in written.split_inclusive(|byte| matches!(*byte, b'\t' | b'\n')) {
        let (front, end) = match piece.split_last() {
            Some((end, front)) if *end == b'\t' => (front, "\t"),
            Some((end, front)) if *end == b'\n' => (front, "\n"),
            _ => (piece, ""),
        };
        push_bytes(text, front)?;
        text.push_str(end)?;
    }
    match end {
        Ok(()) => Ok(()),
        Err(CheckFault::Memory) => Err(AllocError),
        Err(fault) => write!(text, "{fault}\n"),
    }
}

/// Appends the check of an input that has rules, a line `--` and paths.
fn push_checked(
    text: &mut String,
    alloc: Global,
    format: PathFormat,
    joined: &[u8],
) -> Result<(), AllocError> {
    let mut input = joined;
    let mut out = Vec::with_capacity(alloc, ROOM)?;
    let end = check_joined(alloc, format, &mut input, &mut out);
    push_written(text, &out, end)
}

/// Appends the check that also prints the rules, which are in a file with this name.
fn push_told(
    text: &mut String,
    alloc: Global,
    format: PathFormat,
    name: &[u8],
    rules: &[u8],
    paths: &[u8],
) -> Result<(), AllocError> {
    let mut file = rules;
    let Ok(rules) = read_rule_text(alloc, &mut file) else {
        return Err(AllocError);
    };
    let mut input = paths;
    let mut out = Vec::with_capacity(alloc, ROOM)?;
    let end = check_explained(alloc, name, &rules, format, &mut input, &mut out);
    push_written(text, &out, end)
}

/// Appends the word that a check prints for a path.
fn push_word(
    text: &mut String,
    alloc: Global,
    rules: &[u8],
    path: &[u8],
) -> Result<(), AllocError> {
    let Ok(rules) = IgnoreFile::read(alloc, rules) else {
        return Err(AllocError);
    };
    let line = check_text(alloc, &rules, BY_LINES, path)?;
    let (word, _) = cut_at_first(b'\t', &line);
    push_bytes(text, word)
}

/// Appends the explanation of the paths of an input, with options as for `Asked::read`.
fn push_explained(
    text: &mut String,
    alloc: Global,
    top: &Node,
    style: PathStyle,
    asked: &str,
    paths: &[u8],
) -> Result<(), AllocError> {
    let asked = Asked::read(alloc, asked)?;
    if !asked.is_known {
        return text.push_str("an unknown option");
    }
    let filters = asked.filters(alloc)?;
    push_explained_by(text, alloc, &MemTree::new(top), style, &filters, paths)
}

/// Appends an explanation, and then a line if a directory or a file that it needed could not be read.
fn push_explained_by(
    text: &mut String,
    alloc: Global,
    tree: &MemTree,
    style: PathStyle,
    filters: &Filters<'_>,
    paths: &[u8],
) -> Result<(), AllocError> {
    let options = ExplainOptions { filters, style };
    let mut input = paths;
    let mut out = Vec::with_capacity(alloc, ROOM)?;
    let end = match explain(
        alloc,
        tree,
        &options,
        PathEnd::LineFeed,
        &mut input,
        &mut out,
    ) {
        Ok(Outcome::Clean) => Ok(()),
        Ok(Outcome::SomeFaults) => {
            out.extend_from_slice(b"some faults\n")?;
            Ok(())
        }
        Err(fault) => Err(fault),
    };
    push_written(text, &out, end)
}
