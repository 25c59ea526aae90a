//! Cases of a tree in memory: listings and files, and what a walk does with the entries of one directory.

use lc_io::{WholeFault, read_whole};
use lc_level::{
    AttributeState, ChildDirectory, CountedFiles, Filters, Job, LevelReader, OpenFault, Opened,
    ReaderOptions, Scratch, SkippedLine,
};
use lc_rules::State;
use lc_tests::cases::{push_bytes, text_of};
use lc_tests::{Asked, push_faults, push_kind, push_name, push_skipped, tree};
use lc_tree::{MemTree, Node, ReadFault, Tree};
use std::alloc::{AllocError, Global};

/// The options with which a reader keeps nothing besides what a count needs.
const NOTHING: ReaderOptions<'static> = ReaderOptions {
    left_out: false,
    texts: false,
    named: None,
};

const LEFT_OUT: ReaderOptions<'static> = ReaderOptions {
    left_out: true,
    ..NOTHING
};

pub(crate) fn push_answer(
    text: &mut String,
    alloc: Global,
    top: &mut Node,
    kind: &str,
    columns: &[&[u8]],
) -> Result<bool, AllocError> {
    match (kind, columns) {
        ("tree", [sketch]) => *top = tree(alloc, text_of(sketch))?,
        ("list", [path]) => push_listing(text, alloc, top, path)?,
        ("read", [path]) => push_file(text, alloc, top, path)?,
        ("open", [below, request]) => push_opened(text, alloc, top, below, text_of(request))?,
        _ => return Ok(false),
    }
    Ok(true)
}

/// Appends the names of a directory's entries, each with the mark of its kind, or the error.
fn push_listing(
    text: &mut String,
    alloc: Global,
    top: &Node,
    path: &[u8],
) -> Result<(), AllocError> {
    let listing = match MemTree::new(top).list(alloc, path) {
        Ok(listing) => listing,
        Err(ReadFault::Memory) => return Err(AllocError),
        Err(fault) => return write!(text, "{fault:?}"),
    };
    for entry in listing.entries() {
        push_bytes(text, &entry.name)?;
        push_kind(text, entry.kind)?;
        text.push_str(" ")?;
    }
    Ok(())
}

/// Appends the bytes of a file and the error that ends them, or the error of opening the file.
fn push_file(text: &mut String, alloc: Global, top: &Node, path: &[u8]) -> Result<(), AllocError> {
    let tree = MemTree::new(top);
    let mut file = match tree.open_file(alloc, path) {
        Ok(file) => file,
        Err(fault) => return write!(text, "{fault:?}"),
    };
    let mut buffer = [0; 2];
    let mut bytes = Vec::new(alloc);
    let end = read_whole(&mut buffer, &mut bytes, &mut file, 100);
    push_bytes(text, &bytes)?;
    match end {
        Ok(()) => Ok(()),
        Err(WholeFault::Memory) => Err(AllocError),
        Err(fault) => write!(text, "[{fault:?}]"),
    }
}

fn job_named(children: Vec<ChildDirectory>, name: &[u8]) -> Option<Job> {
    for child in children {
        if child.name.as_slice() == name {
            return Some(child.job);
        }
    }
    None
}

/// Returns the job of the top if `below` is empty, and otherwise of the top's child directory with this name, if there is one.
fn job_of(
    alloc: Global,
    reader: &LevelReader<MemTree>,
    filters: &Filters<'_>,
    below: &[u8],
    scratch: &mut Scratch,
) -> Result<Option<Job>, AllocError> {
    let top = Job::top(alloc, filters)?;
    if below.is_empty() {
        return Ok(Some(top));
    }
    match reader.open(&top, scratch) {
        Ok(opened) => Ok(job_named(opened.children, below)),
        Err(OpenFault::Memory) => Err(AllocError),
        Err(_) => Ok(None),
    }
}

fn push_state(text: &mut String, state: &AttributeState) -> Result<(), AllocError> {
    match state.as_state() {
        State::Set => text.push_str(" +"),
        State::Unset => text.push_str(" -"),
        State::Value(value) => {
            text.push_str(" =")?;
            push_name(text, value)
        }
        State::Unspecified => text.push_str(" ?"),
    }
}

fn push_counted(text: &mut String, counted: &CountedFiles) -> Result<(), AllocError> {
    for file in &counted.files {
        push_name(text, &file.path)?;
        let word = file.text().word().unwrap_or("-");
        if word != "-" {
            write!(text, " {word}")?;
        }
        for state in &file.attributes.asked {
            push_state(text, state)?;
        }
        text.push_str("\n")?;
    }
    push_faults(text, &counted.faults)
}

/// Returns the counted files, the errors, the child directories and the skipped entries as lines.
fn found_text(
    alloc: Global,
    counted: &CountedFiles,
    children: &[ChildDirectory],
    skipped: &[SkippedLine],
) -> Result<String, AllocError> {
    let mut text = String::new(alloc);
    push_counted(&mut text, counted)?;
    for child in children {
        push_name(&mut text, &child.name)?;
        text.push_str("/\n")?;
    }
    push_skipped(&mut text, skipped)?;
    Ok(text)
}

/// Opens the directory of a job and counts its files. Returns the number of entries that take part, and what was found or the error, as
/// lines.
fn found_at(
    alloc: Global,
    reader: &LevelReader<MemTree>,
    job: &Job,
    scratch: &mut Scratch,
) -> Result<(u32, String), AllocError> {
    let opened = match reader.open(job, scratch) {
        Ok(opened) => opened,
        Err(OpenFault::Memory) => return Err(AllocError),
        Err(fault) => return Ok((0, format!(in alloc; "{fault:?}")?)),
    };
    let Opened {
        job,
        files,
        children,
        skipped,
        absent,
        entries,
    } = opened;
    let counted = reader.count(&job, files, absent, scratch)?;
    let text = found_text(alloc, &counted, &children, &skipped)?;
    Ok((entries, text))
}

/// Like `found_at`, for the top, or for the top's child directory with this name.
fn found_in(
    alloc: Global,
    tree: &MemTree,
    below: &[u8],
    filters: &Filters<'_>,
    kept: ReaderOptions<'_>,
) -> Result<(u32, String), AllocError> {
    let reader = LevelReader::new(alloc, tree, filters, kept);
    let mut scratch = Scratch::new(alloc)?;
    match job_of(alloc, &reader, filters, below, &mut scratch)? {
        Some(job) => found_at(alloc, &reader, &job, &mut scratch),
        None => Ok((0, String::from_str(alloc, "no such directory")?)),
    }
}

/// Appends how many entries of a directory take part, and what was found in it. A reader that does not keep the skipped entries must find
/// the same without them.
fn push_opened(
    text: &mut String,
    alloc: Global,
    top: &Node,
    below: &[u8],
    request: &str,
) -> Result<(), AllocError> {
    let asked = Asked::read(alloc, request)?;
    let filters = asked.filters(alloc)?;
    let tree = MemTree::new(top);
    let (number, all) = found_in(alloc, &tree, below, &filters, LEFT_OUT)?;
    let (same, plain) = found_in(alloc, &tree, below, &filters, NOTHING)?;
    let (taken, _) = all.split_once("left ").unwrap_or((all.as_str(), ""));
    if !asked.is_known || same != number || plain.as_str() != taken {
        return write!(text, "{request}: {number} {all}, but {same} {plain}");
    }
    write!(text, "{number}")?;
    for (at, line) in all.lines().enumerate() {
        text.push_str(if at == 0 { ": " } else { ", " })?;
        text.push_str(line)?;
    }
    Ok(())
}
