//! A test in which allocations of a locked board may fail. A call that fails does not change the worker's claim, and succeeds when it is
//! made again with enough memory.
use crate::board::script::{Call, ROOT, Told, filling, says};
use crate::board::shared_scripts::tell;
use lc_board::{Locked, LockedPass, Shared, Token};
use std::alloc::Global;
use std::process::Abort;
use std::sync::Wait;
use std::test::Fail;

/// Checks that after the call the pass has claimed the directory with this number, or none, and has added so many child directories under
/// this claim.
fn stands<R: Abort>(rt: &R, call: Call, pass: &LockedPass<u32, u32>, left: (Option<u32>, u32)) {
    assert!(rt; (pass.holding(), pass.posted()) == left, "{call:?}");
}

/// Returns what a call returns if its allocation fails. `None` means that the call does not allocate.
fn refusal(call: Call) -> Option<Told> {
    match call {
        Call::Claim(_) => Some(Told::NoClaim),
        Call::Post(_, job) => Some(Told::NoPost(job)),
        _ => None,
    }
}

/// Makes a call. If its allocation fails, checks that the pass has not changed, and makes the call again.
fn tell_again<R: Wait + Abort>(
    rt: &R,
    board: &Locked<u32, u32>,
    pass: &mut LockedPass<u32, u32>,
    call: Call,
) -> Told {
    let left = (pass.holding(), pass.posted());
    let answer = tell(rt, board, pass, call);
    if Some(answer) != refusal(call) {
        return answer;
    }
    stands(rt, call, pass, left);
    tell(rt, board, pass, call)
}

/// Returns the number of the directory that a worker has claimed after a call of the test's script, and how many child directories the
/// worker has then added.
fn left(told: Told) -> (Option<u32>, u32) {
    match told {
        Told::Got(number, _) => (Some(number), 0),
        Told::Posted(number) => (Some(0), number),
        Told::Full(_) => (Some(0), 63),
        _ => (None, 0),
    }
}

#[test]
fn refused_claim_and_post(rt: HostRuntime) -> Result<(), Fail> {
    let alloc: Global = rt.alloc();
    let (board, mut passes) = Locked::<u32, u32>::start(alloc, 64, 1, ROOT)?;
    let pass = &mut passes[0];
    for (call, told) in &filling(alloc, 64)? {
        says(&rt, *call, tell_again(&rt, &board, pass, *call), *told);
        stands(&rt, *call, pass, left(*told));
    }
    Ok(())
}
