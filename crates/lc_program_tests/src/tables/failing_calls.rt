//! The tables of runs in which one call to the tree fails, such as a listing or a read. Each call that a walk makes fails in one of the
//! runs. In further runs, the tree has a file whose reads fail.

use crate::tables::asking::{Board, Case, HEADER, answer_of, compare, compare_all, new_writer};
use crate::tables::trees::{FIRST_CASE, WHOLE};
use lc_paths::Outcome;
use lc_tests::tree;
use lc_tests::trees::{FailingCall, FailingTree};
use lc_tree::MemTree;
use std::alloc::{AllocError, Global};
use std::process::Abort;
use std::sync::Wait;
use std::test::Fail;
use std::thread::Threads;

const RULES_UNREAD: &[u8] = b"total\t*\t*\t0\t0\t0\t0\ndirectories\t0\nfault\tread\t.gitignore\n";

const LOG_UNCOUNTED: &[u8] =
    b"-\t-\tlf\t1\t3\t0\t24\n.c\t-\tcrlf\t1\t1\t0\t8\ntotal\t*\t*\t2\t4\t0\t32\ndirectories\t3\nfault\tread\tkeep.log\n";

const C_UNCOUNTED: &[u8] =
    b"-\t-\tlf\t1\t3\t0\t24\n.log\t-\tlf\t1\t1\t0\t2\ntotal\t*\t*\t2\t4\t0\t26\ndirectories\t3\nfault\tread\tsrc/build/y.c\n";

/// Calls to the tree that serve one purpose: the number of the first call, the number after the last call, a name, and the lines of the
/// table if one of these calls fails.
type Step = (u64, u64, &'static str, &'static [u8]);

/// The number of calls of a walk of the tree of `FIRST_CASE`. A listing is one call. A file takes three: it is opened, read, and read to
/// its end.
const CALLS: u64 = 15;

/// All calls of a walk of the tree of `FIRST_CASE` by one worker.
const STEPS: &[Step] = &[
    (
        0,
        1,
        "the_top_is_not_listed",
        b"total\t*\t*\t0\t0\t0\t0\ndirectories\t0\nfault\tread\t.\n",
    ),
    (1, 4, "a_gitignore_that_is_not_read_as_rules", RULES_UNREAD),
    (
        4,
        7,
        "a_gitignore_that_is_not_counted",
        b".c\t-\tcrlf\t1\t1\t0\t8\n.log\t-\tlf\t1\t1\t0\t2\ntotal\t*\t*\t2\t2\t0\t10\ndirectories\t3\nfault\tread\t.gitignore\n",
    ),
    (7, 10, "a_kept_file_that_is_not_counted", LOG_UNCOUNTED),
    (
        10,
        11,
        "a_directory_that_is_not_listed",
        b"-\t-\tlf\t1\t3\t0\t24\n.log\t-\tlf\t1\t1\t0\t2\ntotal\t*\t*\t2\t4\t0\t26\ndirectories\t1\nfault\tread\tsrc\n",
    ),
    (
        11,
        12,
        "a_directory_below_it_that_is_not_listed",
        b"-\t-\tlf\t1\t3\t0\t24\n.log\t-\tlf\t1\t1\t0\t2\ntotal\t*\t*\t2\t4\t0\t26\ndirectories\t2\nfault\tread\tsrc/build\n",
    ),
    (12, 15, "a_file_below_that_is_not_counted", C_UNCOUNTED),
];

/// Checks that the run ends as the case says if any one of these calls fails.
fn compare_failing<R: Threads + Wait + Sync + AllocGlobal + Abort>(
    rt: &R,
    tree: &MemTree<'_>,
    from: u64,
    to: u64,
    case: &Case<'_>,
) -> Result<(), Fail> {
    for place in from..to {
        let call = FailingCall::new(place);
        let failing = FailingTree { tree, call: &call };
        compare(rt, &failing, case, Board::Words, 1)?;
    }
    Ok(())
}

#[test]
fn each_call_of_one_worker_fails(rt: HostRuntime) -> Result<(), Fail> {
    let whole = &FIRST_CASE;
    let node = tree(rt.alloc(), whole.top)?;
    let tree = MemTree::new(&node);
    for (from, to, name, lines) in STEPS {
        let case = Case {
            name,
            outcome: Outcome::SomeFaults,
            lines,
            ..*whole
        };
        compare_failing(&rt, &tree, *from, *to, &case)?;
    }
    compare_failing(&rt, &tree, CALLS, CALLS + 1, whole)
}

/// Returns whether a run with four workers in which the call with this number fails ends as one of the steps does. A run that makes more
/// than `CALLS` calls began again, since several workers ran out of memory: this is an `AllocError`.
fn ends_as_a_step<R: Threads + Wait + Sync + AllocGlobal>(
    rt: &R,
    tree: &MemTree<'_>,
    place: u64,
    board: Board,
) -> Result<bool, AllocError> {
    let call = FailingCall::new(place);
    let failing = FailingTree { tree, call: &call };
    let mut out = new_writer(rt.alloc())?;
    let answer = answer_of(rt, &failing, "", board, 4, &mut out)?;
    if call.begun() > CALLS {
        return Err(AllocError);
    }
    let lines = out.taken.as_slice().strip_prefix(HEADER);
    let is_known = STEPS.iter().any(|(_, _, _, wanted)| lines == Some(*wanted));
    Ok(answer == Ok(Outcome::SomeFaults) && is_known)
}

#[test]
fn each_call_of_four_workers_fails(rt: HostRuntime) -> Result<(), Fail> {
    let node = tree(rt.alloc(), FIRST_CASE.top)?;
    let tree = MemTree::new(&node);
    for place in 0..CALLS {
        assert!(rt;
            ends_as_a_step(&rt, &tree, place, Board::Words)?,
            "at {place}"
        );
        assert!(rt;
            ends_as_a_step(&rt, &tree, place, Board::Locked)?,
            "at {place}"
        );
    }
    Ok(())
}

/// The name of each file of `FIRST_CASE`, and the lines of the table if the reads of this file return its bytes and then fail.
const FAILING_FILES: &[(&str, &[u8])] = &[
    (".gitignore", RULES_UNREAD),
    ("a.log", WHOLE),
    ("keep.log", LOG_UNCOUNTED),
    ("x.c", WHOLE),
    ("y.c", C_UNCOUNTED),
];

/// Returns a sketch of the tree of `FIRST_CASE` in which the file with this name fails.
fn with_failing_file(alloc: Global, name: &str) -> Result<String, AllocError> {
    let word = format!(in alloc; "{name}=")?;
    let (before, after) = FIRST_CASE.top.split_once(word.as_str()).unwrap_or(("", ""));
    format!(in alloc; "{before}{name}!{after}")
}

#[test]
fn each_file_fails(rt: HostRuntime) -> Result<(), Fail> {
    for (name, lines) in FAILING_FILES {
        let top = with_failing_file(rt.alloc(), name)?;
        let outcome = if *lines == WHOLE {
            Outcome::Clean
        } else {
            Outcome::SomeFaults
        };
        let case = Case {
            name,
            top: top.as_str(),
            outcome,
            lines,
            ..FIRST_CASE
        };
        compare_all(&rt, &[case])?;
    }
    Ok(())
}
