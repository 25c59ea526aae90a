//! Cases of names and paths, and of how they are printed.

use lc_glob::cut_at_first;
use lc_glob::path::{depth_of, is_good_name, is_good_path, is_too_deep, is_too_long, push_name};
use lc_rules::RuleSource;
use lc_tests::cases::{Pushed, push_bytes, push_words, text_of};
use lc_text::{
    Name, PathEnd, escape, is_top, push_quoted, push_visible_name, push_visible_path,
    source_directory, source_name, split_path, split_slash, undotted,
};
use std::alloc::{AllocError, Global};

pub(crate) fn push_answer(
    text: &mut String,
    alloc: Global,
    kind: &str,
    columns: &[&[u8]],
) -> Result<bool, AllocError> {
    match (kind, columns) {
        ("entry", [path]) => push_entry(text, path)?,
        ("joined", names) => push_joined(text, alloc, names)?,
        ("cut", [byte, bytes]) => push_cut(text, byte, bytes)?,
        ("split", [end, input]) => push_split(text, text_of(end), input)?,
        ("undotted", [line]) => push_undotted(text, line)?,
        ("file-of", [path, place, depth]) => push_file_of(text, path, text_of(place), depth)?,
        ("escaped", [path]) => push_bytes(text, &escape(alloc, path)?)?,
        ("shown", [form, bytes]) => push_shown(text, alloc, text_of(form), bytes)?,
        _ => return Ok(false),
    }
    Ok(true)
}

/// Appends `name` if an entry can have this name, `path` if a tree can have an entry with this path, and how many segments the path has.
fn push_entry(text: &mut String, path: &[u8]) -> Pushed {
    push_words(
        text,
        &[
            (is_good_name(path), "name "),
            (is_good_path(path), "path "),
            (is_too_long(path), "too long "),
            (is_too_deep(path), "too deep "),
        ],
    )?;
    write!(text, "{}", depth_of(path))
}

fn push_joined(text: &mut String, alloc: Global, names: &[&[u8]]) -> Pushed {
    let mut path = Vec::new(alloc);
    for name in names {
        push_name(&mut path, name)?;
    }
    push_bytes(text, &path)
}

/// Appends a part of bytes, between quotation marks.
pub(crate) fn push_part(text: &mut String, part: &[u8]) -> Pushed {
    text.push_str("\"")?;
    push_bytes(text, part)?;
    text.push_str("\" ")
}

fn push_cut(text: &mut String, byte: &[u8], bytes: &[u8]) -> Pushed {
    let byte = byte.first().copied().unwrap_or(0);
    let (before, after) = cut_at_first(byte, bytes);
    push_part(text, before)?;
    match after {
        Some(after) => push_part(text, after),
        None => Ok(()),
    }
}

/// Appends the first path of an input, and what follows it.
fn push_split(text: &mut String, end: &str, input: &[u8]) -> Pushed {
    let end = match end {
        "nul" => PathEnd::Nul,
        _ => PathEnd::LineFeed,
    };
    if input.is_empty() {
        return Ok(());
    }
    let (path, others) = split_path(end, input);
    push_part(text, path)?;
    push_part(text, others)
}

fn push_undotted(text: &mut String, line: &[u8]) -> Pushed {
    let path = undotted(line);
    push_part(text, path)?;
    if undotted(path) != path {
        text.push_str("and less ")?;
    }
    let (path, _) = split_slash(path);
    if is_top(path) {
        text.push_str("the top")?;
    }
    Ok(())
}

/// Appends the directory and the name of the file that has a rule. The rule matches the path.
fn push_file_of(text: &mut String, path: &[u8], place: &str, depth: &[u8]) -> Pushed {
    let depth = text_of(depth).parse::<u32>().unwrap_or(0);
    let source = match place {
        "exclude" => RuleSource::ExcludeFrom,
        "info" => RuleSource::InfoExclude(depth),
        "command" => RuleSource::CommandLine,
        _ => RuleSource::Gitignore(depth),
    };
    push_bytes(text, source_directory(path, source))?;
    text.push_str(source_name(source))
}

/// Appends how bytes are written for a terminal, as a path, an extension, or the file of the rule on line 3 of a directory's `.gitignore`,
/// and for a shell as a word.
fn push_shown(text: &mut String, alloc: Global, form: &str, bytes: &[u8]) -> Pushed {
    let (front, end, line) = match form {
        "extension" => (".", "", None),
        _ => ("", ".gitignore", Some(3)),
    };
    let mut shown = String::new(alloc);
    match form {
        "word" => push_quoted(&mut shown, text_of(bytes))?,
        "path" => push_visible_path(&mut shown, bytes)?,
        _ => push_visible_name(
            &mut shown,
            Name {
                front,
                bytes,
                end,
                line,
            },
        )?,
    }
    push_bytes(text, shown.as_bytes())
}
