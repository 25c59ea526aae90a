//! A count of calls, one of which is to fail.
ghost use Rattle.std.specs.Prelude.{◌≡◌};

use std::marker::Model;
use std::sync::atomic::{AtomicU64, Ordering};

/// A count of the calls that all threads make, and the number of the one call that is to fail. Contracts can refer to this number, but not
/// to the count.
#[derive(Drop)]
pub struct FailingCall {
    begun: AtomicU64,
    place: u64,
}

impl Model for FailingCall {
    ghost use Rattle.std.specs.Prelude.{ℕ};

    ghost Value = { ℕ };

    ghost view = { λ c. c.place };
}

impl FailingCall {
    /// Makes a count of calls that starts at 0. `place` is the number of the call that is to fail; the first call has number 0.
    pub fn new(place: u64) -> FailingCall
        ensures { result ≡ place }
    {
        FailingCall {
            begun: AtomicU64::new(0),
            place,
        }
    }

    /// Returns how many calls have begun. No contract describes a count that threads share, so only tests check this result.
    pub fn begun(&self) -> u64 {
        self.begun.load(Ordering::SeqCst)
    }

    // Counts a call, and returns whether it is to fail.
    pub(super) fn fails(&self) -> bool {
        self.begun.fetch_add(1, Ordering::SeqCst) == self.place
    }
}
