//! Runs over trees in memory: the tables that they print, with several numbers of workers, and their errors.

use crate::tables::asking::{
    Board, Case, HEADER, Workers, answer_of, compare_all, compare_by, new_writer,
};
use lc_paths::Outcome;
use lc_program::RunFault;
use lc_tests::tree;
use lc_tests::writers::{Narrow, WRITERS, WhenFull};
use lc_tree::MemTree;
use lc_walk::WalkFault;
use std::alloc::{AllocError, Global};
use std::process::Abort;
use std::sync::Wait;
use std::test::Fail;
use std::thread::Threads;

const FIRST: &str =
    ".gitignore=*.log;!keep.log;/build/; a.log=x; keep.log=k; build/{ x.c=x; } src/{ build/{ y.c=int_y,^; } }";

/// The lines of the table of `FIRST`, below the header.
pub(super) const WHOLE: &[u8] =
    b"-\t-\tlf\t1\t3\t0\t24\n.c\t-\tcrlf\t1\t1\t0\t8\n.log\t-\tlf\t1\t1\t0\t2\ntotal\t*\t*\t3\t5\t0\t34\ndirectories\t3\n";

pub(super) const FIRST_CASE: Case<'static> = Case {
    name: "ignored_and_kept",
    top: FIRST,
    words: "",
    outcome: Outcome::Clean,
    lines: WHOLE,
};

const TEXT_STATES: Case<'static> = Case {
    name: "text_states_with_files",
    top: ".gitattributes=*.c_text;*.b_binary; x.c=a;b; y.b=\0; z.c=a^;^;",
    words: "--files",
    outcome: Outcome::Clean,
    lines: b"-\t-\tlf\t1\t2\t0\t20\n\
             .b\tunset\tnul\t1\t1\t0\t2\n\
             .c\tset\tlf\t1\t2\t0\t4\n\
             .c\tset\tcrlf\t1\t2\t1\t5\n\
             total\t*\t*\t4\t7\t1\t31\n\
             directories\t1\n\
             file\t-\tlf\t2\t0\t20\t.gitattributes\n\
             file\tset\tlf\t2\t0\t4\tx.c\n\
             file\tunset\tnul\t1\t0\t2\ty.b\n\
             file\tset\tcrlf\t2\t1\t5\tz.c\n",
};

const EXCLUDING: Case<'static> = Case {
    name: "excluding_rules",
    top: ".gitignore=!x.c; x.c=1; y.c=1;",
    words: "--exclude-from=*.c;",
    outcome: Outcome::Clean,
    lines: b"-\t-\tlf\t1\t1\t0\t5\n.c\t-\tlf\t1\t1\t0\t2\ntotal\t*\t*\t2\t2\t0\t7\ndirectories\t1\n",
};

const CASES: &[Case<'static>] = &[
    FIRST_CASE,
    TEXT_STATES,
    Case {
        name: "a_top_that_is_not_listed",
        top: "/!",
        words: "",
        outcome: Outcome::SomeFaults,
        lines: b"total\t*\t*\t0\t0\t0\t0\ndirectories\t0\nfault\tread\t.\n",
    },
    Case {
        name: "a_file_and_a_rule_file_that_fail",
        top: "a.c=x; b.c!yy; d/{ .gitignore! z=z; }",
        words: "",
        outcome: Outcome::SomeFaults,
        lines: b".c\t-\tlf\t1\t1\t0\t2\ntotal\t*\t*\t1\t1\t0\t2\ndirectories\t1\nfault\tread\tb.c\nfault\tread\td/.gitignore\n",
    },
    EXCLUDING,
];

#[test]
fn tables_of_trees(rt: HostRuntime) -> Result<(), Fail> {
    compare_all(&rt, CASES)
}

/// Workers that are so few that tests with failing allocations can make most of these fail in turn.
const FEW: &[Workers] = &[
    (Board::Words, 1),
    (Board::Words, 2),
    (Board::Locked, 1),
    (Board::Locked, 2),
];

#[test]
fn a_tree_by_few_workers(rt: HostRuntime) -> Result<(), Fail> {
    compare_by(&rt, &FIRST_CASE, FEW)
}

#[test]
fn text_states_by_few_workers(rt: HostRuntime) -> Result<(), Fail> {
    compare_by(&rt, &TEXT_STATES, FEW)
}

#[test]
fn excluding_rules_by_few_workers(rt: HostRuntime) -> Result<(), Fail> {
    compare_by(&rt, &EXCLUDING, FEW)
}

/// Returns whether a run over a board fills a writer that has room for `room` bytes with the beginning of `text`, and fails unless this is
/// all of `text`.
fn stops_there<R: Threads + Wait + Sync + AllocGlobal>(
    rt: &R,
    tree: &MemTree<'_>,
    board: Board,
    text: &[u8],
    (step, when_full): (usize, WhenFull),
    room: usize,
) -> Result<bool, AllocError> {
    let mut out = Narrow::new(rt.alloc(), step, room, when_full)?;
    let answer = answer_of(rt, tree, "", board, 1, &mut out)?;
    let expected = if room == text.len() {
        Ok(Outcome::Clean)
    } else {
        Err(RunFault::Write)
    };
    Ok(answer == expected && text.get(..room) == Some(out.taken.as_slice()))
}

fn compare_writes<R: Threads + Wait + Sync + AllocGlobal + Abort>(
    rt: &R,
    tree: &MemTree<'_>,
    text: &[u8],
    writer: (usize, WhenFull),
) -> Result<(), Fail> {
    for room in 0..=text.len() {
        assert!(rt;
            stops_there(rt, tree, Board::Words, text, writer, room)?,
            "at {room}"
        );
        assert!(rt;
            stops_there(rt, tree, Board::Locked, text, writer, room)?,
            "at {room}"
        );
    }
    Ok(())
}

fn with_header(alloc: Global, lines: &[u8]) -> Result<Vec<u8>, AllocError> {
    let mut text = HEADER.to_vec(alloc)?;
    text.extend_from_slice(lines)?;
    Ok(text)
}

#[test]
fn a_run_stops_at_every_place(rt: HostRuntime) -> Result<(), Fail> {
    let node = tree(rt.alloc(), FIRST)?;
    let tree = MemTree::new(&node);
    let text = with_header(rt.alloc(), WHOLE)?;
    for writer in WRITERS {
        compare_writes(&rt, &tree, &text, *writer)?;
    }
    Ok(())
}

/// A tree of 17 directories: one more than the runs of these tests may count.
const MANY_DIRECTORIES: &str = "a/{ b/ c/ d/ e/ f/ g/ h/ } i/{ j/ k/ l/ m/ n/ o/ p/ }";

#[test]
fn a_tree_of_too_many_directories(rt: HostRuntime) -> Result<(), Fail> {
    let node = tree(rt.alloc(), MANY_DIRECTORIES)?;
    for board in [Board::Words, Board::Locked] {
        let mut out = new_writer(rt.alloc())?;
        let answer = answer_of(&rt, &MemTree::new(&node), "", board, 1, &mut out)?;
        assert!(rt; answer == Err(RunFault::Walk(WalkFault::TooManyDirs)));
        assert!(rt; out.taken.is_empty());
    }
    Ok(())
}
