//! Tests of a directory with many files, which idle workers help to count.

use crate::walk::told::report_text;
use crate::walk::walked::{BOARDS, Board, ONLY_FILES, report_over};
use lc_tests::numbered_files;
use lc_tree::MemTree;
use lc_walk::Sums;
use std::alloc::{AllocError, Global};
use std::process::Abort;
use std::sync::Wait;
use std::test::Fail;
use std::thread::Threads;

/// The sums over the files that can be read to their ends.
const SUMS: Sums = Sums {
    files: 2970,
    bytes: 14_850,
    lines: 2970,
    blank: 0,
};

/// Checks that 2 and 16 workers make the report that one worker makes.
fn check<R: Threads + Wait + Sync + Abort>(
    rt: &R,
    alloc: Global,
    tree: &MemTree,
    board: Board,
) -> Result<(), AllocError> {
    let wanted = report_over(rt, alloc, tree, (board, 1), 1, ONLY_FILES)?;
    assert!(rt;
        wanted.totals == SUMS && wanted.faults.len() == 30,
        "{wanted:?}"
    );
    for workers in [2, 16] {
        let report = report_over(rt, alloc, tree, (board, workers), 1, ONLY_FILES)?;
        let same = report_text(alloc, &report)? == report_text(alloc, &wanted)?;
        assert!(rt; same, "{board:?}, {workers}");
    }
    Ok(())
}

#[test]
fn workers_count_a_large_directory_together(rt: HostRuntime) -> Result<(), Fail> {
    let tree = numbered_files(rt.alloc(), 3000, 100)?;
    for board in BOARDS {
        check(&rt, rt.alloc(), &MemTree::new(&tree), *board)?;
    }
    Ok(())
}
