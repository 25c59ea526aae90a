//! Tests that run the scripts of the module `script` on a single-threaded board. The tests themselves remember which directory each worker
//! has claimed.
ghost use Rattle.std.specs.Prelude.{◌≡◌, ◌≤◌};
ghost use Rattle.lc_board.specs.Limits.{capacity_limit, workers_limit};

use crate::board::script::{Call, MANY, ROOT, SCRIPTS, Script, Told, answers, ends_so, filling};
use lc_board::limits::{MAX_CAPACITY, MAX_WORKERS};
use lc_board::{Claim, CloseFault, Closed, Plain};
use std::alloc::{AllocError, Global};
use std::process::Abort;
use std::test::Fail;

/// Makes the call, if the worker may make it now. Otherwise, and for `Call::Fault`, returns `Told::OutOfTurn`.
fn tell(board: &mut Plain<u32, u32>, held: &mut Vec<Option<u32>>, call: Call) -> Told
    requires held { board.old.held ≡ held.old.items }
    ensures held { board.new.held ≡ held.new.items }
{
    let worker = call.worker() as usize;
    if worker >= held.len() {
        return Told::OutOfTurn;
    }
    match call {
        Call::Claim(_) if held[worker].is_none() => {
            let answer = board.claim(worker as u32);
            if let Claim::Got(number, _) = &answer {
                held[worker] = Some(*number);
            }
            Told::from(answer)
        }
        Call::Post(_, job) if held[worker].is_some() => Told::from(board.post(worker as u32, job)),
        Call::Give(_, row) if held[worker].is_some() => {
            board.give(worker as u32, row);
            held[worker] = None;
            Told::Done
        }
        _ => Told::OutOfTurn,
    }
}

/// Makes the script's calls on a new board, checks what each call returns, and returns the board's rows.
fn run<R: Abort>(
    rt: &R,
    alloc: Global,
    capacity: u32,
    workers: u32,
    script: &[(Call, Told)],
) -> Result<Result<Closed<u32>, CloseFault>, AllocError>
    requires capacity { (1 ≤ capacity) × (capacity ≤ capacity_limit) }
    requires workers { (1 ≤ workers) × (workers ≤ workers_limit) }
{
    let mut board = Plain::<u32, u32>::start(alloc, capacity, workers, ROOT)?;
    let mut held = Vec::from_elem(alloc, None, workers as usize)?;
    for (call, told) in script {
        let was_over = board.is_over();
        answers(rt, *call, tell(&mut board, &mut held, *call), *told)?;
        assert!(rt; was_over == (*told == Told::Over), "{call:?}");
    }
    Ok(board.into_rows(alloc))
}

/// Runs a script, and checks that each call and the closing of the board have the results that the script expects.
fn check<R: Abort>(rt: &R, alloc: Global, script: &Script) -> Result<(), AllocError> {
    let (capacity, workers, calls, end) = *script;
    assert!(rt;
        1 <= capacity && capacity <= MAX_CAPACITY && 1 <= workers && workers <= MAX_WORKERS
    );
    let closed = run(rt, alloc, capacity, workers, calls)?;
    ends_so(rt, closed, end)
}

#[test]
fn scripts_on_plain(rt: HostRuntime) -> Result<(), Fail> {
    let alloc: Global = rt.alloc();
    for script in SCRIPTS {
        check(&rt, alloc, script)?;
    }
    let filled = run(&rt, alloc, MANY, 1, &filling(alloc, MANY)?)?;
    ends_so(&rt, filled, Err(CloseFault::Unfinished(1)))?;
    Ok(())
}
