//! Test cases of runs that count a tree and print its table, and the checks of these cases.

ghost use Rattle.std.specs.Prelude.{◌≡◌, ◌≤◌, false};
ghost use Rattle.lc_sheet.specs.Keys.{are_of_files};
ghost use Rattle.lc_walk.specs.WalkOptions.{AreWithinLimits};

use lc_board::Locked;
use lc_level::{Filters, Job};
use lc_paths::Outcome;
use lc_program::{RunFault, run, table};
use lc_sheet::{Columns, Format, Output, ReportOptions, TableOptions};
use lc_tests::trees::BytewiseTree;
use lc_tests::writers::{Narrow, WhenFull};
use lc_tests::{Asked, tree};
use lc_text::PathEnd;
use lc_tree::{MemTree, Tree};
use lc_walk::{Options, ReportLists, Row, WalkFault, walk_on};
use std::alloc::{AllocError, Global};
use std::process::Abort;
use std::sync::Wait;
use std::test::Fail;
use std::thread::Threads;

/// A test case: a name that says what the case shows, a sketch of a tree, the arguments of a run over this tree, the outcome of the run,
/// and the lines of the table below the header.
#[derive(Clone, Copy)]
pub(super) struct Case<'a> {
    pub(super) name: &'a str,
    pub(super) top: &'a str,
    pub(super) words: &'a str,
    pub(super) outcome: Outcome,
    pub(super) lines: &'a [u8],
}

/// The board over which a tree is walked: that of each run, or one with a lock.
#[derive(Debug, Clone, Copy)]
pub(super) enum Board {
    Words,
    Locked,
}

/// The board of a run, and its number of workers.
pub(super) type Workers = (Board, u32);

/// The first line of each table.
pub(super) const HEADER: &[u8] = b"ext\ttext\teol\tfiles\tlines\tblank\tbytes\n";

/// Returns options by which a report with these lists is shown as a table with tabs, with all columns and in the order of keys.
fn showing(lists: ReportLists) -> ReportOptions<'static>
    ensures { are_of_files result.table.by ≡ false }
{
    ReportOptions {
        title: b"",
        chosen: b"",
        table: TableOptions {
            output: Output::Text(Format::Tsv),
            by: Columns::ALL,
            sort: None,
            top: None,
            files: lists.files,
            share: false,
        },
        conditions: &[],
        attributes: &[],
        end: PathEnd::LineFeed,
    }
}

fn options_of<'o>(asked: &Asked<'_>, filters: &'o Filters<'_>, threads: u32) -> Options<'o>
    requires { (1 ≤ threads) × (threads ≤ 16) }
    ensures { AreWithinLimits result }
{
    Options {
        threads,
        max_dirs: 16,
        lists: ReportLists {
            files: asked.files,
            left_out: asked.left_out,
        },
        filters,
        named: None,
    }
}

/// Makes a writer that accepts any table of these tests in one write.
pub(super) fn new_writer(alloc: Global) -> Result<Narrow, AllocError> {
    Narrow::new(alloc, 1_024, 1_024, WhenFull::Fails)
}

/// Counts a tree over a board, and writes its table.
fn counted<R: Threads + Wait + Sync + AllocGlobal, T: Tree>(
    rt: &R,
    tree: &T,
    options: &Options<'_>,
    board: Board,
    out: &mut Narrow,
) -> Result<Outcome, RunFault>
    requires { AreWithinLimits options.now }
{
    let alloc = rt.alloc();
    let shown = showing(options.lists);
    let report = match board {
        Board::Words => run(rt, alloc, tree, options, shown, out)?.report,
        Board::Locked => {
            let mut report = walk_on::<Locked<Job, Row>, T, R>(rt, alloc, tree, options)?;
            table(alloc, &mut report, shown, out)?;
            report
        }
    };
    if report.faults.is_empty() {
        Ok(Outcome::Clean)
    } else {
        Ok(Outcome::SomeFaults)
    }
}

/// Runs a count of a tree with these arguments. Returns the outcome or the error of the run, or `AllocError` if an allocation failed and
/// nothing was written.
pub(super) fn answer_of<R: Threads + Wait + Sync + AllocGlobal, T: Tree>(
    rt: &R,
    tree: &T,
    words: &str,
    board: Board,
    threads: u32,
    out: &mut Narrow,
) -> Result<Result<Outcome, RunFault>, AllocError>
    requires { (1 ≤ threads) × (threads ≤ 16) }
{
    let asked = Asked::read(rt.alloc(), words)?;
    let filters = asked.filters(rt.alloc())?;
    let options = options_of(&asked, &filters, threads);
    match counted(rt, tree, &options, board, out) {
        Err(RunFault::Memory | RunFault::Walk(WalkFault::Memory)) if out.taken.is_empty() => {
            Err(AllocError)
        }
        answer => Ok(answer),
    }
}

/// Returns whether a run over a tree ends as the case says.
fn ends_so<R: Threads + Wait + Sync + AllocGlobal, T: Tree>(
    rt: &R,
    tree: &T,
    case: &Case<'_>,
    board: Board,
    threads: u32,
) -> Result<bool, AllocError>
    requires { (1 ≤ threads) × (threads ≤ 16) }
{
    let mut out = new_writer(rt.alloc())?;
    let answer = answer_of(rt, tree, case.words, board, threads, &mut out)?;
    let lines = out.taken.as_slice().strip_prefix(HEADER);
    Ok(answer == Ok(case.outcome) && lines == Some(case.lines))
}

/// Checks that a run with these workers over a tree ends as the case says.
pub(super) fn compare<R: Threads + Wait + Sync + AllocGlobal + Abort, T: Tree>(
    rt: &R,
    tree: &T,
    case: &Case<'_>,
    board: Board,
    threads: u32,
) -> Result<(), Fail>
    requires { (1 ≤ threads) × (threads ≤ 16) }
{
    assert!(rt;
        ends_so(rt, tree, case, board, threads)?,
        "{} by {threads} over {board:?}",
        case.name
    );
    Ok(())
}

/// Checks that runs over the case's own tree end as the case says, with each of these workers. Also checks a run that reads files byte by
/// byte.
pub(super) fn compare_by<R: Threads + Wait + Sync + AllocGlobal + Abort>(
    rt: &R,
    case: &Case<'_>,
    workers_of_each: &[Workers],
) -> Result<(), Fail> {
    let node = tree(rt.alloc(), case.top)?;
    let tree = MemTree::new(&node);
    for (board, threads) in workers_of_each {
        let threads = *threads;
        assert!(rt; 1 <= threads && threads <= 16);
        compare(rt, &tree, case, *board, threads)?;
    }
    compare(rt, &BytewiseTree(tree), case, Board::Words, 2)
}

const MANY: &[Workers] = &[
    (Board::Words, 1),
    (Board::Words, 2),
    (Board::Words, 16),
    (Board::Locked, 1),
    (Board::Locked, 2),
    (Board::Locked, 16),
];

/// Like `compare_by`, but checks several cases, each over both boards with one, a few and many workers.
pub(super) fn compare_all<R: Threads + Wait + Sync + AllocGlobal + Abort>(
    rt: &R,
    cases: &[Case<'_>],
) -> Result<(), Fail> {
    for case in cases {
        compare_by(rt, case, MANY)?;
    }
    Ok(())
}
