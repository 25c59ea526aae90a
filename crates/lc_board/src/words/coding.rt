//! The states that a directory can have on a board of atomic words, and the codes with which an atomic word stores these states.
ghost use Rattle.std.specs.Prelude.{◌≡◌};
ghost use Rattle.lc_board.specs.WordCode.{code, word_of, end_word, is_absent, is_open, has_ended, is_busy, is_taken};
ghost use Rattle.lc_board.specs.declared.words.coding.Word.TheVariants.{Drawn, Claimed};

use crate::answers::Ended;

/// The state of a directory's number on a board. An atomic word stores the state as a code of type `u64`, so a worker's index in a state
/// also has this type.
#[derive(Clone, Copy, Drop)]
pub enum Word {
    /// No directory has the number yet.
    Absent,
    /// The directory with this number waits for a worker. Its job is in the number's memory slot.
    Open,
    /// A worker has finished the directory with this number. The row is in the number's memory slot.
    Returned,
    /// A worker has finished the directory with this number. The row, which reports an error, is in the number's memory slot.
    Faulted,
    /// This worker has reserved the number, and is about to add a directory with this number to the board.
    Drawn(u64),
    /// This worker has claimed the directory with this number, and has not finished it.
    Claimed(u64),
}

/// The code of `Word::Absent`: no directory has the word's number yet.
pub const ABSENT: u64 = 0;

/// The code of `Word::Open`: the directory waits for a worker.
pub const OPEN: u64 = 1;

/// The code of `Word::Returned`: the directory is finished.
pub const RETURNED: u64 = 2;

/// The code of `Word::Faulted`: the directory is finished, and its row reports an error.
pub const FAULTED: u64 = 3;

/// The least code that contains a worker's index. From here on, an even code says that the worker has reserved the number (`Drawn`). An odd
/// code says that the worker has claimed the directory (`Claimed`).
const BUSY: u64 = 4;

/// Returns the code of `Word::Drawn`: the worker has reserved the number for a directory that it is about to add.
pub fn drawn_by(worker: u32) -> u64
    ensures { result ≡ code (Drawn worker) }
{
    BUSY + 2 * worker as u64
}

/// Returns the code of `Word::Claimed`: the worker has claimed the directory.
pub fn claimed_by(worker: u32) -> u64
    ensures { result ≡ code (Claimed worker) }
{
    BUSY + 1 + 2 * worker as u64
}

/// Returns the code of a directory that a worker has finished by adding this row: `RETURNED` or `FAULTED`.
pub fn ended_by<R>(ended: &Ended<R>) -> u64
    ensures { result ≡ code (end_word ended.now) }
{
    match ended {
        Ended::Returned(_) => RETURNED,
        Ended::Faulted(_) => FAULTED,
    }
}

impl Word {
    /// Returns the state that has this code.
    pub fn of(code: u64) -> Word
        ensures { result ≡ word_of code }
    {
        match code {
            ABSENT => Word::Absent,
            OPEN => Word::Open,
            RETURNED => Word::Returned,
            FAULTED => Word::Faulted,
            _ => {
                let worker = (code - BUSY) / 2;
                if code % 2 == 0 {
                    Word::Drawn(worker)
                } else {
                    Word::Claimed(worker)
                }
            }
        }
    }

    pub fn is_absent(self) -> bool
        ensures { result ≡ is_absent self }
    {
        match self {
            Word::Absent => true,
            _ => false,
        }
    }

    pub fn is_open(self) -> bool
        ensures { result ≡ is_open self }
    {
        match self {
            Word::Open => true,
            _ => false,
        }
    }

    pub fn has_ended(self) -> bool
        ensures { result ≡ has_ended self }
    {
        match self {
            Word::Returned | Word::Faulted => true,
            _ => false,
        }
    }

    /// Returns whether the word's directory is claimed and not finished, or is about to be added to the board.
    pub fn is_busy(self) -> bool
        ensures { result ≡ is_busy self }
    {
        match self {
            Word::Drawn(_) | Word::Claimed(_) => true,
            _ => false,
        }
    }

    /// Returns whether the directory with the number is claimed or finished.
    pub fn is_taken(self) -> bool
        ensures { result ≡ is_taken self }
    {
        match self {
            Word::Returned | Word::Faulted | Word::Claimed(_) => true,
            _ => false,
        }
    }
}
