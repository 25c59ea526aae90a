//! Scripts for the tests of boards: which worker makes which call, and what each call must return.
use lc_board::Ended::Returned;
use lc_board::{Claim, CloseFault, Closed, Ended, PostFault};
use std::alloc::{AllocError, Global};
use std::process::Abort;

/// The job of the root directory.
pub const ROOT: u32 = 7;

/// One call on a board. The first field is the index of the worker. The second field of `Post` is the job, and that of `Give` and `Fault`
/// is the row.
#[derive(Clone, Copy, Debug, Drop)]
pub enum Call {
    Claim(u32),
    Post(u32, u32),
    Give(u32, u32),
    Fault(u32, u32),
}

impl Call {
    pub fn worker(self) -> u32 {
        match self {
            Call::Claim(worker) => worker,
            Call::Post(worker, _) => worker,
            Call::Give(worker, _) => worker,
            Call::Fault(worker, _) => worker,
        }
    }
}

/// What a call on a board returned.
#[derive(Clone, Copy, PartialEq, Eq, Debug, Drop)]
pub enum Told {
    Got(u32, u32),
    Later,
    Over,
    Posted(u32),
    Full(u32),
    Done,
    /// The call of `claim` returned `Claim::Memory`.
    NoClaim,
    /// The call of `post` returned `PostFault::Memory` with this job.
    NoPost(u32),
    /// The call was not made, because this worker must not make it at this time. For example, a worker must not claim a second directory
    /// before it has finished the first.
    OutOfTurn,
}

impl From<Claim<u32>> for Told {
    fn from(answer: Claim<u32>) -> Told {
        match answer {
            Claim::Got(number, job) => Told::Got(number, job),
            Claim::Later => Told::Later,
            Claim::Over => Told::Over,
            Claim::Memory => Told::NoClaim,
        }
    }
}

impl From<Result<u32, PostFault<u32>>> for Told {
    fn from(answer: Result<u32, PostFault<u32>>) -> Told {
        match answer {
            Ok(number) => Told::Posted(number),
            Err(PostFault::Full(job)) => Told::Full(job),
            Err(PostFault::Memory(job)) => Told::NoPost(job),
        }
    }
}

/// Checks that `answer`, the result of the call, is the expected result `told`.
pub fn says<R: Abort>(rt: &R, call: Call, answer: Told, told: Told) {
    assert!(rt; answer == told, "{call:?}");
}

/// Checks that `answer`, the result of the call, is the expected result `told`. If `answer` says that memory ran out, returns an error and
/// checks nothing.
pub fn answers<R: Abort>(rt: &R, call: Call, answer: Told, told: Told) -> Result<(), AllocError> {
    match answer {
        Told::NoClaim => return Err(AllocError),
        Told::NoPost(_) => return Err(AllocError),
        _ => says(rt, call, answer, told),
    }
    Ok(())
}

/// Checks that `closed`, the result of closing a board, is the expected result `end`. If rows are expected and `closed` is
/// `CloseFault::Memory`, returns an error and checks nothing.
pub fn ends_so<R: Abort>(
    rt: &R,
    closed: Result<Closed<u32>, CloseFault>,
    end: Result<&[Ended<u32>], CloseFault>,
) -> Result<(), AllocError> {
    let found = match &closed {
        Ok(closed) => Ok(closed.rows.as_slice()),
        Err(fault) => Err(*fault),
    };
    if end.is_ok() && found == Err(CloseFault::Memory) {
        return Err(AllocError);
    }
    assert!(rt; found == end, "{found:?}, not {end:?}");
    Ok(())
}

/// The expected rows of the script `TWO_WORKERS`.
const TWO_ROWS: &[Ended<u32>] = &[Returned(10), Returned(11)];

/// The expected row of the script `FULL`.
const RETURNED: &[Ended<u32>] = &[Returned(10)];

/// The expected row of the script `FAULT`, in which the root's row reports an error.
pub const FAULTED: &[Ended<u32>] = &[Ended::Faulted(10)];

/// A script of two workers on a board with room for two directories. Worker 1 gets a directory only after worker 0 has added one. In the
/// end both workers find that all directories are finished.
const TWO_WORKERS: &[(Call, Told)] = &[
    (Call::Claim(0), Told::Got(0, ROOT)),
    (Call::Claim(1), Told::Later),
    (Call::Post(0, 9), Told::Posted(1)),
    (Call::Claim(1), Told::Got(1, 9)),
    (Call::Give(0, 10), Told::Done),
    (Call::Claim(0), Told::Later),
    (Call::Give(1, 11), Told::Done),
    (Call::Claim(0), Told::Over),
    (Call::Claim(1), Told::Over),
];

/// A script in which a worker adds a child directory to the board and later claims the same directory.
const OWN_POST: &[(Call, Told)] = &[
    (Call::Claim(0), Told::Got(0, ROOT)),
    (Call::Post(0, 9), Told::Posted(1)),
    (Call::Give(0, 10), Told::Done),
    (Call::Claim(0), Told::Got(1, 9)),
];

/// A script on a board with room for only the root directory, to which no child directory can be added.
const FULL: &[(Call, Told)] = &[
    (Call::Claim(0), Told::Got(0, ROOT)),
    (Call::Post(0, 9), Told::Full(9)),
    (Call::Give(0, 10), Told::Done),
    (Call::Claim(0), Told::Over),
];

/// A script in which a worker finishes the root directory with a row that reports an error.
pub const FAULT: &[(Call, Told)] = &[
    (Call::Claim(0), Told::Got(0, ROOT)),
    (Call::Fault(0, 10), Told::Done),
    (Call::Claim(0), Told::Over),
];

/// A script in which one worker adds a directory with the last unused number while another worker has a claim. The other worker then cannot
/// add a child directory, but can still finish its claimed directory.
const LAST_NUMBER: &[(Call, Told)] = &[
    (Call::Claim(0), Told::Got(0, ROOT)),
    (Call::Post(0, 8), Told::Posted(1)),
    (Call::Claim(1), Told::Got(1, 8)),
    (Call::Post(0, 9), Told::Posted(2)),
    (Call::Post(1, 5), Told::Full(5)),
    (Call::Give(1, 11), Told::Done),
    (Call::Give(0, 10), Told::Done),
    (Call::Claim(0), Told::Got(2, 9)),
    (Call::Give(0, 12), Told::Done),
    (Call::Claim(1), Told::Over),
];

/// The expected rows of the script `LAST_NUMBER`.
const THREE_ROWS: &[Ended<u32>] = &[Returned(10), Returned(11), Returned(12)];

/// A script: the capacity of a board and the number of its workers, the calls on the board, what each call must return, and the expected
/// result of closing the board.
pub type Script = (
    u32,
    u32,
    &'static [(Call, Told)],
    Result<&'static [Ended<u32>], CloseFault>,
);

/// The scripts that run on each type of board.
pub const SCRIPTS: &[Script] = &[
    (2, 2, TWO_WORKERS, Ok(TWO_ROWS)),
    (3, 2, LAST_NUMBER, Ok(THREE_ROWS)),
    (1, 1, FULL, Ok(RETURNED)),
    (2, 1, OWN_POST, Err(CloseFault::Unfinished(1))),
];

/// A capacity that does not fit in 16 bits.
pub const MANY: u32 = 65_537;

/// Makes a script in which one worker claims the root, adds child directories until the board is full, and then fails to add another one.
/// The worker finishes the root, but none of the child directories.
pub fn filling(alloc: Global, capacity: u32) -> Result<Vec<(Call, Told)>, AllocError> {
    let mut script = Vec::new(alloc);
    script.push((Call::Claim(0), Told::Got(0, ROOT)))?;
    for number in 1..capacity {
        let post = Call::Post(0, number.wrapping_add(100));
        script.push((post, Told::Posted(number)))?;
    }
    script.push((Call::Post(0, 0), Told::Full(0)))?;
    script.push((Call::Give(0, 10), Told::Done))?;
    Ok(script)
}
