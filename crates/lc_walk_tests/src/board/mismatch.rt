//! A test in which a locked board is closed with the passes of another board: `close` must return `CloseFault::Mismatch`.
use crate::board::script::{Call, ROOT, Told};
use crate::board::shared_scripts::expect;
use lc_board::{CloseFault, Locked, Shared};
use std::alloc::Global;
use std::test::Fail;

#[test]
fn passes_of_another_board(rt: HostRuntime) -> Result<(), Fail> {
    let alloc: Global = rt.alloc();
    let (board, mut passes) = Locked::<u32, u32>::start(alloc, 1, 1, ROOT)?;
    let (_, others) = Locked::<u32, u32>::start(alloc, 1, 1, ROOT)?;
    let pass = &mut passes[0];
    expect(&rt, &board, pass, Call::Claim(0), Told::Got(0, ROOT))?;
    expect(&rt, &board, pass, Call::Give(0, 1), Told::Done)?;
    assert!(rt; board.close(others) == Err(CloseFault::Mismatch(0)));
    Ok(())
}
