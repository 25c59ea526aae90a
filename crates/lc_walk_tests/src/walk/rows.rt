//! Tests of a walk with a single worker: the rows with what the worker found in each directory. The board, through which workers share
//! directories, has the type `Words` or `Locked`.
ghost use Rattle.std.specs.Prelude.{◌≡◌, None, IfOk, OnOk};
ghost use Rattle.lc_board.specs.Pass.{holding, new_pass};

use crate::walk::walked::{Board, walk_options};
use lc_board::{Claim, CloseFault, Closed, Ended, Locked, Shared, Words};
use lc_level::{Filters, Job};
use lc_tests::tree;
use lc_tree::{IdleThreads, MemTree, Node};
use lc_walk::{
    BrokenCause, BrokenRow, ReportLists, Row, ServedJob, StopReason, Tally, Worker, WorkerResult,
    assemble,
};
use std::alloc::{AllocError, Global};
use std::process::Abort;
use std::sync::Wait;
use std::test::Fail;
use std::thread::Threads;

/// Returns a row as text without names: how many files and child directories the row has, or why it has none. The text is `amiss` for a row
/// that the worker returned where it should have reported an error, or the reverse.
fn words_of(alloc: Global, row: &Ended<Row>) -> Result<String, AllocError> {
    match row {
        Ended::Returned(Row::Listed(row)) => {
            let (files, children) = (row.files().len(), row.children().len());
            format!(in alloc; "listed {files} {children}")
        }
        Ended::Faulted(Row::Faulted(row)) => format!(in alloc; "{:?} {:?}", row.site, row.word),
        Ended::Returned(Row::Broken(row)) => format!(in alloc; "broken {:?}", row.cause),
        _ => format!(in alloc; "amiss"),
    }
}

/// A tree that one worker walks, and what is expected of the walk. If `is_broken`, the top already has a `Row::Broken`, after a post of its
/// child `d`. `rows` has the text of each row, by the directory's number. `words` and `locked` have the numbers in the order in which the
/// worker claims them over each board. `report` has the numbers of files, entries and skipped entries, or why there is no report.
struct Case<'a> {
    tree: &'a str,
    is_broken: bool,
    rows: &'a str,
    words: &'a str,
    locked: &'a str,
    report: &'a str,
}

/// Starts a board for one worker and at most four directories. Returns the board and the worker's pass.
fn start_one<B: Shared<Job, Row>>(alloc: Global) -> Result<(B, B::Pass), AllocError>
    ensures workers { IfOk result (λ b. B.workers_of b.0 ≡ 1) }
    ensures pass { IfOk result (λ b. B.owns b.0 b.1 × (B.Pass.view b.1 ≡ new_pass 0)) }
{
    let (board, mut passes) = B::start(alloc, 4, 1, Job::top(alloc, &Filters::none(alloc))?)?;
    let pass = passes.remove(0);
    Ok((board, pass))
}

/// Closes a board that has only one worker, and returns its rows.
fn close_one<B: Shared<Job, Row>>(
    rt: &impl Abort,
    alloc: Global,
    board: B,
    pass: B::Pass,
) -> Result<Closed<Row>, AllocError>
    requires workers { B.workers_of board ≡ 1 }
    requires pass { B.owns board pass × ((B.Pass.view pass).worker ≡ 0) }
{
    let mut passes = Vec::new(alloc);
    passes.push(pass)?;
    match board.close(passes) {
        Ok(closed) => Ok(closed),
        Err(fault) => {
            assert!(rt; fault == CloseFault::Memory);
            Err(AllocError)
        }
    }
}

/// If `is_broken`, claims the top, posts its child `d`, and ends the claim with a `Row::Broken`, as after a failed allocation.
fn begin<B: Shared<Job, Row>, W: Wait>(
    rt: &W,
    alloc: Global,
    board: &B,
    pass: &mut B::Pass,
    is_broken: bool,
) -> Result<(), AllocError>
    requires pass { B.owns board.now pass.old }
    requires free { holding (B.Pass.view pass.old) ≡ None }
    ensures pass { OnOk result (B.owns board.now pass.new) }
    ensures free { OnOk result (holding (B.Pass.view pass.new) ≡ None) }
    ensures worker { OnOk result ((B.Pass.view pass.new).worker ≡ (B.Pass.view pass.old).worker) }
{
    if !is_broken {
        return Ok(());
    }
    let Claim::Got(_, job) = board.claim(rt, pass) else {
        return Err(AllocError);
    };
    let child = job.at(alloc, b"d")?;
    if board.post(rt, pass, child).is_err() {
        return Err(AllocError);
    }
    let (job, cause) = (ServedJob::of(job), BrokenCause::Memory);
    board.give(rt, pass, Row::Broken(BrokenRow { job, cause }));
    Ok(())
}

/// The result of one worker: the closed board with its rows, and the worker's tally if no allocation failed.
type Skipped = (Closed<Row>, Option<Tally>);

/// The lists of the reports: the counted files and the skipped entries.
const LISTS: ReportLists = ReportLists {
    files: true,
    left_out: true,
};

/// Runs one worker on the tree of a case, over a board of the type `B`. Returns the rows and the tally.
fn work<B: Shared<Job, Row>, R: Threads + Wait + Sync + Abort>(
    rt: &R,
    alloc: Global,
    case: &Case,
) -> Result<Skipped, AllocError> {
    let node = node_of(alloc, case.tree)?;
    let tree = MemTree::new(&node);
    let (board, mut pass) = start_one::<B>(alloc)?;
    begin(rt, alloc, &board, &mut pass, case.is_broken)?;
    let filters = Filters::none(alloc);
    let options = walk_options(rt, 1, 4, LISTS, &filters);
    let idle = IdleThreads::all_idle(1);
    let worker = Worker::new(rt, alloc, &board, &tree, &options, &idle);
    let WorkerResult { pass, end, tally } = worker.run(pass);
    if end == StopReason::Memory {
        return Err(AllocError);
    }
    Ok((close_one(rt, alloc, board, pass)?, tally))
}

fn work_over<R: Threads + Wait + Sync + Abort>(
    rt: &R,
    alloc: Global,
    board: Board,
    case: &Case,
) -> Result<Skipped, AllocError> {
    match board {
        Board::Words => work::<Words<Job, Row>, R>(rt, alloc, case),
        Board::Locked => work::<Locked<Job, Row>, R>(rt, alloc, case),
    }
}

const CASES: &[Case] = &[
    // a row of each kind
    Case {
        tree: "closed/! deep/{ LONG } file listed/{ a b }",
        is_broken: false,
        rows: "listed 1 3, Directory Read, broken TooDeep, listed 2 0",
        words: "0 3 2 1",
        locked: "0 1 2 3",
        report: "path too deep",
    },
    // a row for which an allocation failed after a post
    Case {
        tree: "d/{ e/ }",
        is_broken: true,
        rows: "broken Memory, listed 0 1, listed 0 0",
        words: "0 1 2",
        locked: "0 1 2",
        report: "out of memory",
    },
    // two directories below the top
    Case {
        tree: "a d/{ b } e/{ c l@ }",
        is_broken: false,
        rows: "listed 1 2, listed 1 0, listed 1 0",
        words: "0 2 1",
        locked: "0 1 2",
        report: "3 6 1",
    },
];

/// The text of a row that ended because an allocation failed.
const GIVEN_UP: &str = "broken Memory";

/// Returns the tree of a sketch, with a name of 4,097 bytes in place of `LONG`.
fn node_of(alloc: Global, sketch: &str) -> Result<Node, AllocError> {
    let Some((before, after)) = sketch.split_once("LONG") else {
        return tree(alloc, sketch);
    };
    let mut long = String::new(alloc);
    for _ in 0..4097 {
        long.push('a')?;
    }
    tree(alloc, &format!(in alloc; "{before}{long}{after}")?)
}

/// Checks the rows in the order of `claims`: each has the text in `wanted` until an allocation fails, and from then on the text `GIVEN_UP`.
/// Returns whether an allocation failed.
fn some_refused(
    rt: &impl Abort,
    alloc: Global,
    rows: &[Ended<Row>],
    wanted: &str,
    claims: &str,
) -> Result<bool, AllocError> {
    let mut refused = false;
    for number in claims.split(' ') {
        let number = number.parse::<usize>().unwrap_or(0);
        if let Some(row) = rows.get(number)
            && let Some(wanted) = wanted.split(',').nth(number)
        {
            let found = words_of(alloc, row)?;
            let wanted = wanted.trim();
            refused = refused || found.as_str() == GIVEN_UP && wanted != GIVEN_UP;
            let wanted = if refused { GIVEN_UP } else { wanted };
            assert!(rt; found.as_str() == wanted, "{found}, not {wanted}");
        }
    }
    Ok(refused)
}

/// Checks that the report of the rows and the tally is the expected one, and that no report is made if an allocation failed.
fn check_report(
    rt: &impl Abort,
    alloc: Global,
    case: &Case,
    skipped: Skipped,
    refused: bool,
) -> Result<(), AllocError> {
    let (closed, tally) = skipped;
    assert!(rt; closed.rows.len() <= 4);
    let tally = match tally {
        Some(tally) => tally,
        None => Tally::new(alloc),
    };
    let found = match assemble(alloc, closed, LISTS, tally) {
        Ok(report) => {
            let (files, entries) = (report.totals.files, report.entries);
            format!(in alloc; "{files} {entries} {}", report.skipped.len())?
        }
        Err(fault) => format!(in alloc; "{fault}")?,
    };
    let is_memory = found.as_str() == "out of memory";
    if is_memory && found.as_str() != case.report {
        return Err(AllocError);
    }
    assert!(rt;
        found.as_str() == case.report && (is_memory || !refused),
        "{found}"
    );
    Ok(())
}

/// Checks the rows and the report of one case. If an allocation of the worker fails, each posted directory still gets a row, so the board
/// closes, but there is no report.
fn check<R: Threads + Wait + Sync + Abort>(
    rt: &R,
    alloc: Global,
    board: Board,
    case: &Case,
) -> Result<(), AllocError> {
    let skipped = work_over(rt, alloc, board, case)?;
    let claims = match board {
        Board::Words => case.words,
        Board::Locked => case.locked,
    };
    let refused = some_refused(rt, alloc, &skipped.0.rows, case.rows, claims)?;
    let (many, all) = (skipped.0.rows.len(), case.rows.split(',').count());
    assert!(rt; many == all || refused && many < all, "{many}");
    check_report(rt, alloc, case, skipped, refused)
}

#[test]
fn rows_of_one_worker(rt: HostRuntime) -> Result<(), Fail> {
    for case in CASES {
        check(&rt, rt.alloc(), Board::Words, case)?;
        check(&rt, rt.alloc(), Board::Locked, case)?;
    }
    Ok(())
}
