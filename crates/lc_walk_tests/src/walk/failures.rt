//! Tests of walks in which one call on the tree fails: which error the walk reports, and which files and directories it still finds.
ghost use Rattle.std.specs.Prelude.{◌<◌, IfOk, IfSome};

use crate::walk::walked::{BOARDS, Board, ONLY_FILES, report_over};
use crate::walk::walks::{IGNORING, REPOSITORY};
use lc_level::FaultWord;
use lc_tests::trees::{FailingCall, FailingTree};
use lc_tests::{has_words, push_faults, tree};
use lc_tree::MemTree;
use lc_walk::{FileLine, Report};
use std::alloc::{AllocError, Global};
use std::process::Abort;
use std::sync::Wait;
use std::test::Fail;
use std::thread::Threads;

const TREE: &str = "
    .git/{ info/{ attributes=*.c_text; exclude=*.o; } }
    .gitignore=*.log;
    a=1;2;
    d/{ .gitattributes=b_text; b=22;; c.log c.o e/{ c } }";

/// The possible outcomes of a walk with one failed call: the path of the error, the number of directories that are read, and the prefix of
/// the paths of the files that are not counted.
const OUTCOMES: [(&[u8], u64, &[u8]); 14] = [
    (b"", 0, b""),
    (b".git", 0, b""),
    (b".git/info", 0, b""),
    (b".git/info/exclude", 0, b""),
    (b".git/info/attributes", 0, b""),
    (b".gitignore", 0, b""),
    (b".gitignore", 3, b".gitignore"),
    (b"a", 3, b"a"),
    (b"d", 1, b"d/"),
    (b"d/.gitattributes", 1, b"d/"),
    (b"d/.gitattributes", 3, b"d/.gitattributes"),
    (b"d/b", 3, b"d/b"),
    (b"d/e", 2, b"d/e/"),
    (b"d/e/c", 3, b"d/e/c"),
];

/// Walks a tree, with this call on the tree failing, over this board and with this number of threads.
fn walk_failing<R: Threads + Wait + Sync + Abort>(
    rt: &R,
    alloc: Global,
    tree: &MemTree,
    call: &FailingCall,
    run: (Board, u32),
) -> Result<Report, AllocError> {
    report_over(rt, alloc, &FailingTree { tree, call }, run, 3, ONLY_FILES)
}

fn is_same_file(file: &FileLine, other: &FileLine) -> bool {
    file.path == other.path && file.text() == other.text() && file.count == other.count
}

/// Returns whether the report lists and totals exactly the files of the whole walk whose paths do not begin with `lost`.
fn has_all_but(report: &Report, whole: &[FileLine], lost: &[u8]) -> bool {
    let mut files = report.files.iter();
    let mut bytes: u128 = 0;
    for wanted in whole {
        if wanted.path.starts_with(lost) {
            continue;
        }
        let Some(file) = files.next() else {
            return false;
        };
        if !is_same_file(file, wanted) {
            return false;
        }
        bytes = bytes.wrapping_add(u128::from(wanted.count.bytes));
    }
    files.next().is_none()
        && report.totals.files == report.files.len() as u64
        && report.totals.bytes == bytes
}

/// Returns the index in `OUTCOMES` that fits the report of a walk with one failed call.
fn outcome_of(report: &Report, whole: &[FileLine]) -> Option<usize>
    ensures { IfSome result (λ n. n < 14) }
{
    let [fault] = report.faults.as_slice() else {
        return None;
    };
    let outcome = OUTCOMES.iter().position(|(path, directories, _)| {
        fault.path.as_slice() == *path && report.directories == *directories
    })?;
    if fault.word == FaultWord::Read && has_all_but(report, whole, OUTCOMES[outcome].2) {
        return Some(outcome);
    }
    None
}

/// The files of a walk in which no call fails, and the number of calls that this walk makes.
#[derive(Clone, Copy)]
struct Whole<'w> {
    files: &'w [FileLine],
    calls: u64,
}

/// Checks that the walk whose call at this place fails has one of the outcomes, and returns the outcome's index. If the walk made more
/// calls than `whole`, it began again because several workers ran out of memory; this is returned as an error.
fn check_call<R: Threads + Wait + Sync + Abort>(
    rt: &R,
    alloc: Global,
    tree: &MemTree,
    whole: Whole,
    place: u64,
    run: (Board, u32),
) -> Result<usize, AllocError>
    ensures { IfOk result (λ n. n < 14) }
{
    let call = FailingCall::new(place);
    let report = walk_failing(rt, alloc, tree, &call, run)?;
    if call.begun() > whole.calls {
        return Err(AllocError);
    }
    let outcome = outcome_of(&report, whole.files);
    assert!(rt; outcome.is_some(), "{place}: {report:?}");
    Ok(outcome.unwrap_or(0))
}

/// Lets each call of the walk fail once, and checks the outcome. With one worker, each of the outcomes must occur.
fn check_calls<R: Threads + Wait + Sync + Abort>(
    rt: &R,
    alloc: Global,
    run: (Board, u32),
) -> Result<(), AllocError> {
    let node = tree(alloc, TREE)?;
    let tree = MemTree::new(&node);
    let none = FailingCall::new(u64::MAX);
    let whole = walk_failing(rt, alloc, &tree, &none, (run.0, 1))?;
    assert!(rt;
        whole.faults.is_empty() && whole.files.len() == 5,
        "{whole:?}"
    );
    let mut seen = [false; OUTCOMES.len()];
    let whole = Whole {
        files: &whole.files,
        calls: none.begun(),
    };
    for place in 0..whole.calls {
        seen[check_call(rt, alloc, &tree, whole, place, run)?] = true;
    }
    assert!(rt; run.1 > 1 || !seen.contains(&false), "{seen:?}");
    Ok(())
}

/// The boards and the numbers of workers to test with: one worker, and four.
const RUNS: &[(Board, u32)] = &[
    (Board::Words, 1),
    (Board::Words, 4),
    (Board::Locked, 1),
    (Board::Locked, 4),
];

#[test]
fn one_call_fails(rt: HostRuntime) -> Result<(), Fail> {
    for run in RUNS {
        check_calls(&rt, rt.alloc(), *run)?;
    }
    Ok(())
}

/// Calls on the tree that the only worker of a walk makes for one purpose, and what the walk finds if one of them fails. The parts are the
/// number of the first call, the number of the call after the last, and the expected text: the totals of files, lines, blank lines and
/// bytes, the number of directories, and the errors. A listing is one call; a file is opened, read, and read to its end.
type Step = (u64, u64, &'static str);

/// The calls of a walk of `IGNORING`. The last step has a number that no call has.
const STEPS_OF_IGNORING: &[Step] = &[
    (0, 1, "0 0 0 0, directories 0, fault read ."),
    (1, 4, "0 0 0 0, directories 0, fault read .gitignore"),
    (4, 7, "2 2 0 10, directories 3, fault read .gitignore"),
    (7, 10, "2 4 0 32, directories 3, fault read keep.log"),
    (10, 11, "2 4 0 26, directories 1, fault read src"),
    (11, 12, "2 4 0 26, directories 2, fault read src/build"),
    (12, 15, "2 4 0 26, directories 3, fault read src/build/y.c"),
    (15, 16, WHOLE),
];

const WHOLE: &str = "3 5 0 34, directories 3";

/// The calls of a walk of `REPOSITORY`. The last step has a number that no call has.
const STEPS_OF_REPOSITORY: &[Step] = &[
    (0, 1, "0 0 0 0, directories 0, fault read ."),
    (1, 2, "0 0 0 0, directories 0, fault read .git"),
    (2, 3, "0 0 0 0, directories 0, fault read .git/info"),
    (3, 6, "0 0 0 0, directories 0, fault read .git/info/exclude"),
    (
        6,
        9,
        "0 0 0 0, directories 0, fault read .git/info/attributes",
    ),
    (9, 12, "0 0 0 0, directories 0, fault read .gitignore"),
    (12, 15, "0 0 0 0, directories 0, fault read .gitattributes"),
    (15, 18, "2 2 0 6, directories 1, fault read .gitattributes"),
    (18, 21, "2 2 0 12, directories 1, fault read .gitignore"),
    (21, 24, "2 2 0 14, directories 1, fault read m.c"),
    (24, 25, "3 3 0 16, directories 1"),
];

/// Checks the walks in which one call of the step fails.
fn check_step<R: Threads + Wait + Sync + Abort>(
    rt: &R,
    alloc: Global,
    board: Board,
    tree: &MemTree,
    (first, end, wanted): &Step,
) -> Result<(), AllocError> {
    for place in *first..*end {
        let call = FailingCall::new(place);
        let report = walk_failing(rt, alloc, tree, &call, (board, 1))?;
        let sums = report.totals;
        let mut found = format!(in alloc; "{} {} {}", sums.files, sums.lines, sums.blank)?;
        write!(
            found,
            " {} directories {}\n",
            sums.bytes, report.directories
        )?;
        push_faults(&mut found, &report.faults)?;
        assert!(rt; has_words(&found, wanted), "{board:?}, {place}: {found}");
    }
    Ok(())
}

/// Checks the walks of a tree in which one call of one of the steps fails.
fn check_steps<R: Threads + Wait + Sync + Abort>(
    rt: &R,
    alloc: Global,
    board: Board,
    sketch: &str,
    steps: &[Step],
) -> Result<(), AllocError> {
    let node = tree(alloc, sketch)?;
    for step in steps {
        check_step(rt, alloc, board, &MemTree::new(&node), step)?;
    }
    Ok(())
}

#[test]
fn each_call_of_one_worker_fails(rt: HostRuntime) -> Result<(), Fail> {
    for board in BOARDS {
        check_steps(&rt, rt.alloc(), *board, IGNORING, STEPS_OF_IGNORING)?;
        check_steps(&rt, rt.alloc(), *board, REPOSITORY, STEPS_OF_REPOSITORY)?;
    }
    Ok(())
}

/// A number that no call has.
const NO_CALL: u64 = 1_000_000;

/// The name of a file of `IGNORING`, and what a walk finds if the file fails instead of ending.
const FAILING_FILES: &[(&str, &str)] = &[
    (
        ".gitignore",
        "0 0 0 0, directories 0, fault read .gitignore",
    ),
    ("a.log", WHOLE),
    ("keep.log", "2 4 0 32, directories 3, fault read keep.log"),
    ("x.c", WHOLE),
    ("y.c", "2 4 0 26, directories 3, fault read src/build/y.c"),
];

/// Checks the walk of `IGNORING` with one worker if a file fails instead of ending.
fn check_failing<R: Threads + Wait + Sync + Abort>(
    rt: &R,
    alloc: Global,
    board: Board,
    (name, wanted): &(&str, &'static str),
) -> Result<(), AllocError> {
    let file = format!(in alloc; "{name}=")?;
    let Some((before, after)) = IGNORING.split_once(file.as_str()) else {
        assert!(rt; false, "there is no {name}");
        return Ok(());
    };
    let sketch = format!(in alloc; "{before}{name}!{after}")?;
    check_steps(
        rt,
        alloc,
        board,
        &sketch,
        &[(NO_CALL, NO_CALL + 1, *wanted)],
    )
}

#[test]
fn each_file_fails(rt: HostRuntime) -> Result<(), Fail> {
    for file in FAILING_FILES {
        check_failing(&rt, rt.alloc(), Board::Words, file)?;
        check_failing(&rt, rt.alloc(), Board::Locked, file)?;
    }
    Ok(())
}
