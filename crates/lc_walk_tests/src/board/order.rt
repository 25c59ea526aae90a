//! Tests of the order in which claims on a `Words` board take the directories that wait for a worker. No contract states this order.
ghost use Rattle.std.specs.Prelude.{◌≤◌};
ghost use Rattle.lc_board.specs.Limits.{capacity_limit};

use crate::board::script::{Call, ROOT, Told, ends_so};
use crate::board::shared_scripts::run;
use lc_board::{Ended, Words};
use std::alloc::{AllocError, Global};
use std::process::Abort;
use std::sync::Wait;
use std::test::Fail;

/// Calls in which a worker claims the directory that it added to the board last. A worker that has added none claims the waiting directory
/// with the lowest number.
const LAST_POSTED_FIRST: &[(Call, Told)] = &[
    (Call::Claim(0), Told::Got(0, ROOT)),
    (Call::Post(0, 1), Told::Posted(1)),
    (Call::Post(0, 2), Told::Posted(2)),
    (Call::Post(0, 3), Told::Posted(3)),
    (Call::Give(0, 0), Told::Done),
    (Call::Claim(0), Told::Got(3, 3)),
    (Call::Post(0, 4), Told::Posted(4)),
    (Call::Post(0, 5), Told::Posted(5)),
    (Call::Give(0, 3), Told::Done),
    (Call::Claim(1), Told::Got(1, 1)),
    (Call::Give(1, 1), Told::Done),
    (Call::Claim(0), Told::Got(5, 5)),
    (Call::Give(0, 5), Told::Done),
    (Call::Claim(0), Told::Got(4, 4)),
    (Call::Give(0, 4), Told::Done),
    (Call::Claim(0), Told::Got(2, 2)),
    (Call::Give(0, 2), Told::Done),
    (Call::Claim(0), Told::Over),
    (Call::Claim(1), Told::Over),
];

/// Calls in which worker 0 first tries to claim the directory that it added to the board last. Worker 1 has already claimed that directory,
/// and no other directory waits for a worker.
const TAKEN_BY_THE_OTHER: &[(Call, Told)] = &[
    (Call::Claim(0), Told::Got(0, ROOT)),
    (Call::Post(0, 1), Told::Posted(1)),
    (Call::Post(0, 2), Told::Posted(2)),
    (Call::Claim(1), Told::Got(1, 1)),
    (Call::Give(1, 1), Told::Done),
    (Call::Claim(1), Told::Got(2, 2)),
    (Call::Give(0, 0), Told::Done),
    (Call::Claim(0), Told::Later),
    (Call::Give(1, 2), Told::Done),
    (Call::Claim(0), Told::Over),
    (Call::Claim(1), Told::Over),
];

/// Returns the rows of a board on which each directory's row is the directory's number.
fn own_rows(alloc: Global, capacity: u32) -> Result<Vec<Ended<u32>>, AllocError> {
    let mut rows = Vec::with_capacity(alloc, capacity as usize)?;
    for number in 0..capacity {
        rows.push(Ended::Returned(number))?;
    }
    Ok(rows)
}

/// Makes the script's calls on a `Words` board with two workers, and checks that each directory's row is the directory's number.
fn claims_so<R: Wait + Abort>(
    rt: &R,
    alloc: Global,
    capacity: u32,
    script: &[(Call, Told)],
) -> Result<(), AllocError>
    requires { (1 ≤ capacity) × (capacity ≤ capacity_limit) }
{
    let closed = run::<Words<u32, u32>, R>(rt, alloc, capacity, 2, script)?;
    ends_so(rt, closed, Ok(&own_rows(alloc, capacity)?))
}

#[test]
fn what_was_posted_last_is_claimed_first(rt: HostRuntime) -> Result<(), Fail> {
    claims_so(&rt, rt.alloc(), 6, LAST_POSTED_FIRST)?;
    claims_so(&rt, rt.alloc(), 3, TAKEN_BY_THE_OTHER)?;
    Ok(())
}

/// A capacity so large that the test would take minutes if each claim read the words of all claimed and finished directories.
const CROWD: u32 = 1 << 19;

/// The last calls of the script of `claimed_in_turn`: worker 0 finishes the root after all other directories are finished.
const AFTER_CROWD: &[(Call, Told)] = &[
    (Call::Claim(1), Told::Later),
    (Call::Give(0, 0), Told::Done),
    (Call::Claim(1), Told::Over),
];

/// Makes a script in which worker 0 adds child directories of the root until the board is full. Before worker 0 finishes the root, worker 1
/// claims and finishes these directories one by one.
fn claimed_in_turn(alloc: Global) -> Result<Vec<(Call, Told)>, AllocError> {
    let mut script = Vec::with_capacity(alloc, 3 * CROWD as usize + 1)?;
    script.push((Call::Claim(0), Told::Got(0, ROOT)))?;
    for number in 1..CROWD {
        script.push((Call::Post(0, number), Told::Posted(number)))?;
    }
    for number in 1..CROWD {
        script.push((Call::Claim(1), Told::Got(number, number)))?;
        script.push((Call::Give(1, number), Told::Done))?;
    }
    script.extend_from_slice(AFTER_CROWD)?;
    Ok(script)
}

#[test]
fn claims_begin_above_what_is_taken(rt: HostRuntime) -> Result<(), Fail> {
    claims_so(&rt, rt.alloc(), CROWD, &claimed_in_turn(rt.alloc())?)?;
    Ok(())
}
