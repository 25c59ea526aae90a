//! Tests that run the scripts of the module `script` on boards that workers share.
ghost use Rattle.std.specs.Prelude.{◌≡◌, ◌≤◌, ◌<◌, Some};
ghost use Rattle.lc_board.specs.Limits.{capacity_limit, workers_limit};

use crate::board::script::{
    Call, FAULT, FAULTED, MANY, ROOT, SCRIPTS, Script, Told, answers, ends_so, filling,
};
use lc_board::limits::{MAX_CAPACITY, MAX_WORKERS};
use lc_board::{CloseFault, Closed, Locked, Shared, Token, Words};
use std::alloc::{AllocError, Global};
use std::process::Abort;
use std::sync::Wait;
use std::test::Fail;

/// Makes the call, if the worker of the pass may make it now. Otherwise returns `Told::OutOfTurn`.
pub fn tell<B: Shared<u32, u32>, W: Wait>(rt: &W, board: &B, pass: &mut B::Pass, call: Call) -> Told
    requires { B.owns board.now pass.old }
    ensures pass { B.owns board.now pass.new }
    ensures worker { (B.Pass.view pass.new).worker ≡ (B.Pass.view pass.old).worker }
{
    let held = pass.holding().is_some();
    match call {
        Call::Claim(_) if !held => Told::from(board.claim(rt, pass)),
        Call::Post(_, job) if held => Told::from(board.post(rt, pass, job)),
        Call::Give(_, row) if held => {
            board.give(rt, pass, row);
            Told::Done
        }
        Call::Fault(_, row) if held && pass.posted() == 0 => {
            board.fault(rt, pass, row);
            Told::Done
        }
        _ => Told::OutOfTurn,
    }
}

/// Makes a call, and checks that it returns `told`. If memory runs out in the call, returns an error and checks nothing.
pub fn expect<B: Shared<u32, u32>, R: Wait + Abort>(
    rt: &R,
    board: &B,
    pass: &mut B::Pass,
    call: Call,
    told: Told,
) -> Result<(), AllocError>
    requires { B.owns board.now pass.old }
    ensures pass { B.owns board.now pass.new }
    ensures worker { (B.Pass.view pass.new).worker ≡ (B.Pass.view pass.old).worker }
{
    answers(rt, call, tell(rt, board, pass, call), told)
}

/// Makes the script's calls on a new board, checks what each call returns, and closes the board.
pub fn run<B: Shared<u32, u32>, R: Wait + Abort>(
    rt: &R,
    alloc: Global,
    capacity: u32,
    workers: u32,
    script: &[(Call, Told)],
) -> Result<Result<Closed<u32>, CloseFault>, AllocError>
    requires capacity { (1 ≤ capacity) × (capacity ≤ capacity_limit) }
    requires workers { (1 ≤ workers) × (workers ≤ workers_limit) }
{
    let (board, mut passes) = B::start(alloc, capacity, workers, ROOT)?;
    for (call, told) in script {
        let worker = call.worker() as usize;
        assert!(rt; worker < passes.len());
        expect(rt, &board, &mut passes[worker], *call, *told)?;
    }
    Ok(board.close(passes))
}

/// Runs a script on a board of this type. Checks that each call and the closing of the board have the results that the script expects.
fn check<B: Shared<u32, u32>, R: Wait + Abort>(
    rt: &R,
    alloc: Global,
    script: &Script,
) -> Result<(), AllocError> {
    let (capacity, workers, calls, end) = *script;
    assert!(rt;
        1 <= capacity && capacity <= MAX_CAPACITY && 1 <= workers && workers <= MAX_WORKERS
    );
    let closed = run::<B, R>(rt, alloc, capacity, workers, calls)?;
    ends_so(rt, closed, end)
}

/// Runs each script on a new board of this type.
fn scripts_on<B: Shared<u32, u32>, R: Wait + Abort>(
    rt: &R,
    alloc: Global,
) -> Result<(), AllocError> {
    for script in SCRIPTS {
        check::<B, R>(rt, alloc, script)?;
    }
    ends_so(rt, run::<B, R>(rt, alloc, 1, 1, FAULT)?, Ok(FAULTED))?;
    let filled = run::<B, R>(rt, alloc, MANY, 1, &filling(alloc, MANY)?)?;
    ends_so(rt, filled, Err(CloseFault::Unfinished(1)))
}

#[test]
fn scripts_on_locked(rt: HostRuntime) -> Result<(), Fail> {
    scripts_on::<Locked<u32, u32>, HostRuntime>(&rt, rt.alloc())?;
    Ok(())
}

#[test]
fn scripts_on_words(rt: HostRuntime) -> Result<(), Fail> {
    scripts_on::<Words<u32, u32>, HostRuntime>(&rt, rt.alloc())?;
    Ok(())
}
