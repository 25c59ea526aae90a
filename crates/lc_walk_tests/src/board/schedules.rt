//! Tests in which two workers make calls on a board with room for three directories. A schedule is an integer: its bits say which worker
//! makes each of the first `NAMED` calls. All schedules are tried.
ghost use Rattle.std.specs.Prelude.{◌≡◌, ◌<◌};

use crate::board::script::{Call, ROOT, Told};
use crate::board::shared_scripts::tell;
use lc_board::Ended::Returned;
use lc_board::{CloseFault, Closed, Ended, Locked, Shared, Token, Words};
use std::alloc::{AllocError, Global};
use std::process::Abort;
use std::sync::Wait;
use std::test::Fail;

/// How many calls are made in the order that the bits of the schedule say. After these calls the two workers take turns.
const NAMED: u32 = 14;

const CALLS: u32 = 36;

/// The expected rows if the third directory is a child of the root.
const BY_ROOT: &[Ended<u32>] = &[Returned(ROOT), Returned(0), Returned(0)];

/// The expected rows if the third directory is a child of the second directory.
const BY_OTHER: &[Ended<u32>] = &[Returned(ROOT), Returned(0), Returned(1)];

/// What a worker remembers between two calls.
#[derive(Clone, Copy, Drop)]
struct Memory {
    /// The job that the worker got when it last claimed a directory.
    job: u32,
    /// How many child directories the worker has tried to add to the board under its present claim.
    tried: u32,
}

const NOTHING: Memory = Memory { job: 0, tried: 0 };

fn claim<B: Shared<u32, u32>, W: Wait>(
    rt: &W,
    board: &B,
    pass: &mut B::Pass,
    memory: &mut Memory,
) -> Result<(), AllocError>
    requires { B.owns board.now pass.old }
    ensures pass { B.owns board.now pass.new }
    ensures worker { (B.Pass.view pass.new).worker ≡ (B.Pass.view pass.old).worker }
{
    match tell(rt, board, pass, Call::Claim(0)) {
        Told::Got(_, job) => memory.job = job,
        Told::NoClaim => return Err(AllocError),
        _ => {}
    }
    Ok(())
}

/// Returns how many child directories a worker tries to add under the directory with this number. In total the workers try to add more
/// directories than the board has room for.
fn wanted(number: u32) -> u32 {
    if number == 0 { 2 } else { 1 }
}

/// Makes the next call of a worker: claims a directory, adds a child directory, or finishes the claimed directory with the job as the row.
fn step<B: Shared<u32, u32>, W: Wait>(
    rt: &W,
    board: &B,
    pass: &mut B::Pass,
    memory: &mut Memory,
) -> Result<(), AllocError>
    requires { B.owns board.now pass.old }
    ensures pass { B.owns board.now pass.new }
    ensures worker { (B.Pass.view pass.new).worker ≡ (B.Pass.view pass.old).worker }
{
    let number = match pass.holding() {
        None => return claim(rt, board, pass, memory),
        Some(number) => number,
    };
    if memory.tried < wanted(number) {
        memory.tried += 1;
        return match tell(rt, board, pass, Call::Post(0, number)) {
            Told::NoPost(_) => Err(AllocError),
            _ => Ok(()),
        };
    }
    memory.tried = 0;
    let _ = tell(rt, board, pass, Call::Give(0, memory.job));
    Ok(())
}

/// Returns the index of the worker that makes the call of this turn.
fn worker_at(schedule: u32, turn: u32) -> usize
    ensures { result < 2 }
{
    if turn < NAMED {
        (schedule >> turn) as usize % 2
    } else {
        turn as usize % 2
    }
}

fn is_either(rows: &[Ended<u32>]) -> bool {
    rows == BY_ROOT || rows == BY_OTHER
}

/// Checks that the board was closed with the rows `BY_ROOT` or `BY_OTHER`, if there was memory for the rows.
fn has_either<R: Abort>(
    rt: &R,
    schedule: u32,
    closed: Result<Closed<u32>, CloseFault>,
) -> Result<(), AllocError> {
    match closed {
        Ok(closed) => assert!(rt; is_either(&closed.rows), "{schedule}"),
        Err(CloseFault::Memory) => return Err(AllocError),
        Err(fault) => assert!(rt; false, "{schedule}: {fault:?}"),
    }
    Ok(())
}

/// Makes the calls of two workers on a new board in the order of the schedule, closes the board, and checks its rows.
fn follow<B: Shared<u32, u32>, R: Wait + Abort>(
    rt: &R,
    alloc: Global,
    schedule: u32,
) -> Result<(), AllocError> {
    let (board, mut passes) = B::start(alloc, 3, 2, ROOT)?;
    let mut memories = [NOTHING; 2];
    for turn in 0..CALLS {
        let worker = worker_at(schedule, turn);
        step::<B, R>(rt, &board, &mut passes[worker], &mut memories[worker])?;
    }
    has_either(rt, schedule, board.close(passes))
}

/// Follows every schedule, each on a new board of this type.
fn follow_all<B: Shared<u32, u32>, R: Wait + Abort>(
    rt: &R,
    alloc: Global,
) -> Result<(), AllocError> {
    for schedule in 0..1 << NAMED {
        follow::<B, R>(rt, alloc, schedule)?;
    }
    Ok(())
}

#[test]
fn every_order_of_calls_on_locked(rt: HostRuntime) -> Result<(), Fail> {
    follow_all::<Locked<u32, u32>, HostRuntime>(&rt, rt.alloc())?;
    Ok(())
}

#[test]
fn every_order_of_calls_on_words(rt: HostRuntime) -> Result<(), Fail> {
    follow_all::<Words<u32, u32>, HostRuntime>(&rt, rt.alloc())?;
    Ok(())
}
