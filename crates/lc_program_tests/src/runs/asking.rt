//! Runs of the program over directories and files in memory, and how they must end.

use crate::runs::mem_system::MemSystem;
use lc_program::{Streams, Terminals, UnreadReason, program};
use lc_tests::Sketch;
use lc_tests::writers::{Narrow, WhenFull};
use lc_tree::Node;
use std::alloc::{AllocError, Global};
use std::process::Abort;
use std::sync::Wait;
use std::test::Fail;
use std::thread::Threads;

/// An entry of a directory: its name, and a sketch of its contents.
pub(super) type Entry = (&'static [u8], Sketch<'static>);

/// A run of the program with the arguments `words`, and how it must end. The system has the directory `top`, the directory `other` with one
/// file, and the files in `files`, which the arguments may name.
#[derive(Clone, Copy)]
pub(super) struct Case<'a> {
    pub(super) name: &'a str,
    pub(super) top: Sketch<'a>,
    /// The directory `top` for a walk that enters one file system alone.
    pub(super) bounded: Sketch<'a>,
    pub(super) files: Sketch<'a>,
    pub(super) words: &'a [&'a str],
    pub(super) input: &'a [u8],
    pub(super) terminals: Terminals,
    pub(super) why: Option<UnreadReason>,
    pub(super) above: Option<(&'static str, &'static str)>,
    /// The exit status of the run.
    pub(super) status: u8,
    pub(super) out: &'a [u8],
    pub(super) err: &'a [u8],
}

pub(super) const NO_TERMINALS: Terminals = Terminals {
    input: false,
    output: false,
    error: false,
};

/// A run without arguments, in which `top` can't be listed and there are no files. Other cases change fields of this case.
pub(super) const EMPTY: Case<'static> = Case {
    name: "",
    top: Sketch::Closed,
    bounded: Sketch::Closed,
    files: Sketch::Dir(&[]),
    words: &[],
    input: b"",
    terminals: NO_TERMINALS,
    why: None,
    above: None,
    status: 0,
    out: b"",
    err: b"",
};

const OTHER: Sketch<'static> = Sketch::Dir(&[(b"other.x", Sketch::File(b"1\n2\n"))]);

fn directories_of(
    alloc: Global,
    top: &Sketch<'_>,
) -> Result<Vec<(&'static str, Node)>, AllocError> {
    let mut directories = Vec::with_capacity(alloc, 2)?;
    directories.push(("other", OTHER.node(alloc)?))?;
    directories.push(("top", top.node(alloc)?))?;
    Ok(directories)
}

/// Returns a writer that takes a little more than this text.
fn writer_of(alloc: Global, text: &[u8]) -> Result<Narrow, AllocError> {
    Narrow::new(alloc, 4_096, text.len().saturating_add(64), WhenFull::Fails)
}

/// Returns whether standard error shows that an allocation failed: it says so, or lacks a hint.
fn is_refusal(told: &[u8], wanted: &[u8]) -> bool {
    told.ends_with(b"lc: out of memory\n")
        // A system without memory may know of no repository. So the hint is missing, or its command has fewer of several directories.
        || (told.len() < wanted.len()
            && (wanted.starts_with(told) || told.ends_with(b" reads them\n")))
}

/// Returns whether a run in this system ends as the case says. An error means that an allocation failed.
fn ends_so<R: Threads + Wait + Sync + AllocGlobal>(
    rt: &R,
    system: &MemSystem<'_>,
    words: &[&str],
    case: &Case<'_>,
) -> Result<bool, AllocError> {
    let mut streams = Streams {
        input: case.input,
        out: writer_of(rt.alloc(), case.out)?,
        err: writer_of(rt.alloc(), case.err)?,
    };
    let status = program(rt, system, words, case.terminals, &mut streams);
    if is_refusal(&streams.err.taken, case.err) {
        return Err(AllocError);
    }
    Ok(
        status == case.status
            && streams.out.taken.as_slice() == case.out
            && streams.err.taken.as_slice() == case.err,
    )
}

/// Returns whether a run of a case with these arguments ends as the case says.
fn is_so<R: Threads + Wait + Sync + AllocGlobal>(
    rt: &R,
    words: &[&str],
    case: &Case<'_>,
) -> Result<bool, AllocError> {
    let directories = directories_of(rt.alloc(), &case.top)?;
    let bounded = directories_of(rt.alloc(), &case.bounded)?;
    let files = case.files.node(rt.alloc())?;
    let system = MemSystem {
        directories: &directories,
        bounded: &bounded,
        absent: &Node::Closed,
        files: &files,
        why: case.why,
        above: case.above,
    };
    ends_so(rt, &system, words, case)
}

/// Checks that the runs of these cases end as the cases say.
pub(super) fn compare_all<R: Threads + Wait + Sync + AllocGlobal + Abort>(
    rt: &R,
    cases: &[Case<'_>],
) -> Result<(), Fail> {
    for case in cases {
        assert!(rt; is_so(rt, case.words, case)?, "{}", case.name);
    }
    Ok(())
}

/// Checks that the run of a case with this number of threads ends as the case says.
fn compare_by<R: Threads + Wait + Sync + AllocGlobal + Abort>(
    rt: &R,
    case: &Case<'_>,
    threads: &str,
) -> Result<(), Fail> {
    let mut words = case.words.to_vec(rt.alloc())?;
    words.push("--threads")?;
    words.push(threads)?;
    assert!(rt; is_so(rt, &words, case)?, "{} by {threads}", case.name);
    Ok(())
}

/// Like `compare_all`, but runs each case with one thread and with several.
pub(super) fn compare_by_threads<R: Threads + Wait + Sync + AllocGlobal + Abort>(
    rt: &R,
    cases: &[Case<'_>],
) -> Result<(), Fail> {
    for case in cases {
        for threads in ["1", "2", "16"] {
            compare_by(rt, case, threads)?;
        }
    }
    Ok(())
}
