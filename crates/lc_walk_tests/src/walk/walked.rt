//! Walks of in-memory trees with 1, 2 and 16 workers, which share a board of the type `Words` or `Locked`.
ghost use Rattle.lc_walk.specs.WalkOptions.{AreWithinLimits};

use crate::walk::told::report_text;
use lc_board::Locked;
use lc_level::{Filters, Job};
use lc_tests::trees::{FailingCall, FailingTree};
use lc_tests::{Asked, cut, has_words, tree};
use lc_tree::{MemTree, Node, Tree};
use lc_walk::{Options, Report, ReportLists, Row, WalkFault, walk, walk_on};
use std::alloc::{AllocError, Global};
use std::process::Abort;
use std::sync::Wait;
use std::thread::Threads;

/// A report without optional lists.
pub(super) const NO_LISTS: ReportLists = ReportLists {
    files: false,
    left_out: false,
};

/// A report with the list of counted files, but not of skipped entries.
pub(super) const ONLY_FILES: ReportLists = ReportLists {
    files: true,
    left_out: false,
};

/// Returns the options of a walk with these numbers of threads and directories. The test fails if a number is outside the limits.
pub(super) fn walk_options<'o>(
    rt: &impl Abort,
    threads: u32,
    max_dirs: u32,
    lists: ReportLists,
    filters: &'o Filters<'_>,
) -> Options<'o>
    ensures { AreWithinLimits result }
{
    assert!(rt; 1 <= threads && threads <= 16);
    assert!(rt; 1 <= max_dirs && max_dirs <= 1_048_576);
    Options {
        lists,
        ..Options::new(threads, max_dirs, filters)
    }
}

/// A type of board over which the tests walk.
#[derive(Clone, Copy, Debug)]
pub(super) enum Board {
    Words,
    Locked,
}

impl Board {
    /// Walks a tree over a board of this type.
    pub(super) fn walk<T: Tree, R: Threads + Wait + Sync>(
        self,
        rt: &R,
        alloc: Global,
        tree: &T,
        options: &Options<'_>,
    ) -> Result<Report, WalkFault>
        requires { AreWithinLimits options.now }
    {
        match self {
            Board::Words => walk(rt, alloc, tree, options),
            Board::Locked => walk_on::<Locked<Job, Row>, T, R>(rt, alloc, tree, options),
        }
    }
}

pub(super) const BOARDS: &[Board] = &[Board::Words, Board::Locked];

/// The boards and numbers of workers with which each case is walked.
const RUNS: &[(Board, u32)] = &[
    (Board::Words, 1),
    (Board::Locked, 1),
    (Board::Words, 2),
    (Board::Locked, 2),
    (Board::Words, 16),
    (Board::Locked, 16),
];

/// Returns the report of a walk that nothing but a failed allocation can stop.
pub(super) fn report_of(
    rt: &impl Abort,
    answer: Result<Report, WalkFault>,
) -> Result<Report, AllocError> {
    match answer {
        Ok(report) => Ok(report),
        Err(fault) => {
            assert!(rt; fault == WalkFault::Memory);
            Err(AllocError)
        }
    }
}

/// Walks a tree over a board of this type with this many workers. Nothing but a failed allocation can stop the walk.
pub(super) fn report_over<T: Tree, R: Threads + Wait + Sync + Abort>(
    rt: &R,
    alloc: Global,
    tree: &T,
    (board, threads): (Board, u32),
    max_dirs: u32,
    lists: ReportLists,
) -> Result<Report, AllocError> {
    let filters = Filters::none(alloc);
    let options = walk_options(rt, threads, max_dirs, lists, &filters);
    report_of(rt, board.walk(rt, alloc, tree, &options))
}

/// Returns as text what a walk found, or why it made no report.
fn answer_text(alloc: Global, answer: &Result<Report, WalkFault>) -> Result<String, AllocError> {
    match answer {
        Ok(report) => report_text(alloc, report),
        Err(WalkFault::Memory) => Err(AllocError),
        Err(fault) => format!(in alloc; "{fault}"),
    }
}

/// Splits an expected report into the report without its number of calls, and that number if it is there.
fn without_calls(wanted: &str) -> (&str, Option<u64>) {
    match wanted.split_once("calls ") {
        Some((wanted, calls)) => (wanted, calls.parse::<u64>().ok()),
        None => (wanted, None),
    }
}

/// Checks the report of a walk and the number of its calls on the tree. If the walk made more calls than expected, it began again because
/// several workers ran out of memory; this is returned as an error.
pub(super) fn check_answer(
    rt: &impl Abort,
    alloc: Global,
    wanted: &str,
    answer: &Result<Report, WalkFault>,
    calls: u64,
) -> Result<(), AllocError> {
    let found = answer_text(alloc, answer)?;
    let (wanted, wanted_calls) = without_calls(wanted);
    let wanted_calls = wanted_calls.unwrap_or(calls);
    if wanted_calls < calls {
        return Err(AllocError);
    }
    assert!(rt;
        has_words(&found, wanted) && wanted_calls == calls,
        "{found} calls {calls}, not {wanted}"
    );
    Ok(())
}

/// Checks that the walk of this tree over this board makes the expected report.
fn check_run<R: Threads + Wait + Sync + Abort>(
    rt: &R,
    alloc: Global,
    top: &Node,
    options: &Options<'_>,
    wanted: &str,
    board: Board,
) -> Result<(), AllocError>
    requires { AreWithinLimits options.now }
{
    let tree = MemTree::new(top);
    let call = FailingCall::new(u64::MAX);
    let counted = FailingTree {
        tree: &tree,
        call: &call,
    };
    let answer = board.walk(rt, alloc, &counted, options);
    check_answer(rt, alloc, wanted, &answer, call.begun())
}

/// Checks that the walk of this tree finds what is expected, over each board and with each number of workers. A request has arguments as
/// on the command line, and the expected report, or why the walk makes none, separated by `|`. The report may end with the number of calls
/// on the tree: a listing is one call; a file is opened, read, and read to its end.
pub(super) fn check_node<R: Threads + Wait + Sync + Abort>(
    rt: &R,
    alloc: Global,
    top: &Node,
    request: &str,
) -> Result<(), AllocError> {
    let (words, wanted) = cut(request);
    let asked = Asked::read(alloc, words)?;
    assert!(rt; asked.is_known, "{words}");
    let filters = asked.filters(alloc)?;
    let lists = ReportLists {
        files: asked.files,
        left_out: asked.left_out,
    };
    for (board, threads) in RUNS {
        let options = walk_options(rt, *threads, asked.max_dirs, lists, &filters);
        check_run(rt, alloc, top, &options, wanted, *board)?;
    }
    Ok(())
}

/// Checks several walks of one tree. Each case has a name and a request, separated by `|`.
pub(super) fn check_parts<R: Threads + Wait + Sync + Abort>(
    rt: &R,
    alloc: Global,
    sketch: &str,
    cases: &[&str],
) -> Result<(), AllocError> {
    let top = tree(alloc, sketch)?;
    for case in cases {
        check_node(rt, alloc, &top, cut(case).1)?;
    }
    Ok(())
}

/// Checks one walk of each case's tree. A case has a name, the sketch of a tree, and a request, separated by `|`.
pub(super) fn check<R: Threads + Wait + Sync + Abort>(
    rt: &R,
    alloc: Global,
    cases: &[&str],
) -> Result<(), AllocError> {
    for case in cases {
        let (sketch, request) = cut(cut(case).1);
        check_node(rt, alloc, &tree(alloc, sketch)?, request)?;
    }
    Ok(())
}
