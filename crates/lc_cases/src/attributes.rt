//! Cases of attribute files.

use lc_glob::cut_at_first;
use lc_rules::{AttrChain, AttrFile, RuleFault, State, is_attribute_name};
use lc_tests::cases::{Pushed, push_bytes, text_of, yes_no};
use lc_text::split_slash;
use std::alloc::{AllocError, Global};
use std::sync::Arc;

pub(crate) fn push_answer(
    text: &mut String,
    alloc: Global,
    kind: &str,
    columns: &[&[u8]],
) -> Result<bool, AllocError> {
    match (kind, columns) {
        ("attribute", [lines, path, name]) => push_attribute(text, alloc, lines, path, name)?,
        ("states", [names, path, files @ ..]) => {
            push_states(text, alloc, text_of(names), path, files)?
        }
        ("texts", [paths, files @ ..]) => push_texts(text, alloc, text_of(paths), files)?,
        ("attribute-file", [bytes]) => push_file(text, alloc, bytes)?,
        ("attribute-names", names) => push_names(text, names)?,
        _ => return Ok(false),
    }
    Ok(true)
}

fn file(alloc: Global, lines: &[u8], top: bool) -> Result<Arc<AttrFile, Global>, AllocError> {
    let file = AttrFile::read(alloc, lines, top).map_err(|_| AllocError)?;
    Ok(Arc::new(alloc, file)?)
}

fn push_state(text: &mut String, state: State<'_>) -> Pushed {
    match state {
        State::Set => text.push_str("set"),
        State::Unset => text.push_str("unset"),
        State::Unspecified => text.push_str("unspecified"),
        State::Value(value) => {
            text.push_str("=")?;
            push_bytes(text, value)
        }
    }
}

/// Appends the state of an attribute for a file, by the lines of a file at the top.
fn push_attribute(
    text: &mut String,
    alloc: Global,
    lines: &[u8],
    path: &[u8],
    name: &[u8],
) -> Pushed {
    let chain = AttrChain::top_with(None).below(alloc, 0, Some(file(alloc, lines, true)?))?;
    push_state(text, chain.state(alloc, path, false, name)?)
}

/// Adds a file to a chain, a place with lines after it: the lowest file, the file of `.git/info`, or the depth of a directory. A place
/// alone has no file.
fn with_file(chain: &AttrChain, alloc: Global, part: &[u8]) -> Result<AttrChain, AllocError> {
    let (place, lines) = cut_at_first(b' ', part);
    let place = text_of(place);
    let depth = place.parse::<u32>().unwrap_or(0);
    let file = match lines {
        Some(lines) => Some(file(alloc, lines, depth == 0)?),
        None => None,
    };
    match place {
        "lowest" => Ok(AttrChain::top_with(file)),
        "info" => chain.with_info(alloc, file),
        _ => chain.below(alloc, depth, file),
    }
}

fn chain_of(alloc: Global, files: &[&[u8]]) -> Result<AttrChain, AllocError> {
    let mut chain = AttrChain::top_with(None);
    for file in files {
        chain = with_file(&chain, alloc, file)?;
    }
    Ok(chain)
}

/// Appends the states of attributes for a path, which ends with a slash if it is a directory.
fn push_states(
    text: &mut String,
    alloc: Global,
    names: &str,
    path: &[u8],
    files: &[&[u8]],
) -> Pushed {
    let chain = chain_of(alloc, files)?;
    let (path, is_dir) = split_slash(path);
    for name in names.split_ascii_whitespace() {
        push_state(text, chain.state(alloc, path, is_dir, name.as_bytes())?)?;
        text.push_str(" ")?;
    }
    Ok(())
}

/// Appends the state of the attribute `text` for each path.
fn push_texts(text: &mut String, alloc: Global, paths: &str, files: &[&[u8]]) -> Pushed {
    let chain = chain_of(alloc, files)?;
    for path in paths.split_ascii_whitespace() {
        let state = chain.text(alloc, path.as_bytes())?;
        write!(text, "{} ", state.word().unwrap_or("unspecified"))?;
    }
    Ok(())
}

/// Appends whether a file of these bytes is at the top, read as a file at the top and as one below it.
fn push_file(text: &mut String, alloc: Global, bytes: &[u8]) -> Pushed {
    for top in [true, false] {
        match AttrFile::read(alloc, bytes, top) {
            Ok(file) => write!(text, "{} ", yes_no(file.is_top()))?,
            Err(RuleFault::TooLong) => text.push_str("too long ")?,
            Err(RuleFault::Memory) => return Err(AllocError),
        }
    }
    Ok(())
}

/// Appends for each name whether an attribute can have it.
fn push_names(text: &mut String, names: &[&[u8]]) -> Pushed {
    for name in names {
        write!(text, "{} ", yes_no(is_attribute_name(name)))?;
    }
    Ok(())
}
