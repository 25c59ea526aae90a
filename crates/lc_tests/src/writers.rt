//! A writer whose contract determines what it accepts.

ghost use Rattle.std.specs.Prelude.{◌≡◌, [], IfOk};
ghost use Rattle.lc_tests.specs.TrialWrites.{TakesSome};

use lc_io::{Failed, Sink};
use std::alloc::{AllocError, Global};

/// What a writer does once it is full.
#[derive(Debug, Clone, Copy, PartialEq, Eq)]
pub enum WhenFull {
    /// A write accepts nothing.
    TakesNothing,
    /// A write fails.
    Fails,
}

/// Settings of the writer `Narrow`. Each pair has the most bytes that one write accepts, and what the writer does once it is full. Tests
/// use each pair for several writers, which are full after different numbers of bytes.
pub const WRITERS: &[(usize, WhenFull)] = &[
    (1, WhenFull::TakesNothing),
    (1, WhenFull::Fails),
    (7, WhenFull::TakesNothing),
    (7, WhenFull::Fails),
];

/// A writer that accepts at most `step` bytes in one write, and at most `room` bytes in all.
///
/// ```
/// let mut out = Narrow::new(rt.alloc(), 1, 10, WhenFull::Fails)?; // ten writes of a byte, and then failures
/// ```
#[derive(Drop)]
pub struct Narrow {
    /// The bytes that the writer accepted.
    pub taken: Vec<u8>,
    step: usize,
    room: usize,
    when_full: WhenFull,
}

impl Narrow {
    /// Makes a writer that has accepted nothing so far. Allocates the memory for all bytes that the writer may accept.
    pub fn new(
        alloc: Global,
        step: usize,
        room: usize,
        when_full: WhenFull,
    ) -> Result<Narrow, AllocError>
        ensures { IfOk result (λ out. out.taken.items ≡ []) }
    {
        Ok(Narrow {
            taken: Vec::with_capacity(alloc, room)?,
            step,
            room,
            when_full,
        })
    }
}

impl Sink for Narrow {
    ghost may_take = { λ old bytes answer new. TakesSome old.taken.items bytes answer new.taken.items };

    fn write(&mut self, bytes: &[u8]) -> Result<usize, Failed> {
        let room = self.room.saturating_sub(self.taken.len());
        let count = bytes.len().min(self.step).min(room);
        if count == 0 {
            return match self.when_full {
                WhenFull::TakesNothing => Ok(0),
                WhenFull::Fails => Err(Failed),
            };
        }
        match self.taken.extend_from_slice(&bytes[..count]) {
            Ok(()) => Ok(count),
            Err(_) => Err(Failed),
        }
    }
}
