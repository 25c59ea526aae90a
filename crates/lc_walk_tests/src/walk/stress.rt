//! Tests of sixteen workers over a large tree.

use crate::walk::drawn::draw_tree;
use crate::walk::told::report_text;
use crate::walk::walked::{BOARDS, Board};
use std::alloc::{AllocError, Global};
use std::process::Abort;
use std::sync::Wait;
use std::test::Fail;
use std::thread::Threads;

const DIRECTORIES: u32 = 20_000;

const RUNS: u32 = 20;

/// Checks that each of several walks with sixteen workers makes the report that one worker makes.
fn check_runs<R: Threads + Wait + Sync + Abort>(
    rt: &R,
    alloc: Global,
    board: Board,
) -> Result<(), AllocError> {
    let drawn = draw_tree(alloc, 0x9E37_79B9_7F4A_7C15, DIRECTORIES)?;
    let wanted = report_text(alloc, &drawn.walk(rt, alloc, Board::Words, 1)?)?;
    for run in 0..RUNS {
        let report = drawn.walk(rt, alloc, board, 16)?;
        let same = report_text(alloc, &report)? == wanted;
        assert!(rt; same, "{run}: {:?}", report.totals);
    }
    Ok(())
}

#[test]
fn sixteen_workers_find_what_one_does(rt: HostRuntime) -> Result<(), Fail> {
    for board in BOARDS {
        check_runs(&rt, rt.alloc(), *board)?;
    }
    Ok(())
}
