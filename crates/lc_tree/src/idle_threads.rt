//! A count of the threads that have nothing to do.
ghost use Rattle.std.specs.Prelude.{◌≡◌, ◌-◌, ◌≤◌};

use std::marker::Model;
use std::sync::atomic::{AtomicU32, Ordering};

/// Counts the threads that have nothing to do. Threads share the count, so that a thread with much work can split the work among idle
/// threads.
///
/// The count is a hint, and may be out of date when it is used. So it decides only how much work is done in parallel, never what the result
/// is.
///
/// The count consists of two numbers, neither of them below 0:
///
/// - idle: at first none, or all threads with `all_idle`; `begin` adds 1, and `end` subtracts 1
/// - lent: how many of the threads that `take` returned were not given back
///
/// `take` returns at most idle minus lent threads, or none if lent is greater than idle. So two callers never get the same idle thread. If
/// a lent thread finds work of its own, this difference is too small by 1 until the lent threads are given back.
///
/// In contracts the value is the total number of threads. The thread that calls `take` has work itself, so it always gets fewer threads
/// than this total.
///
/// ```
/// let idle = IdleThreads::new(2);
/// idle.begin(); // in a thread that waits for work
/// let helpers = idle.take(15); // in a thread with much work: 1
/// // Do the work in `helpers.count() + 1` parts side by side.
/// idle.give_back(helpers);
/// idle.end(); // in the first thread, which has work again
/// ```
#[derive(Drop)]
pub struct IdleThreads {
    threads: u32,
    idle: AtomicU32,
    lent: AtomicU32,
}

impl Model for IdleThreads {
    ghost use Rattle.std.specs.Prelude.{ℕ};

    ghost Value = { ℕ };

    ghost view = { λ t. t.threads };
}

/// Idle threads that `IdleThreads::take` returned to a thread with work. They can't be dropped, only given back by
/// `IdleThreads::give_back`.
pub struct Helpers {
    count: u32,
}

impl Model for Helpers {
    ghost use Rattle.std.specs.Prelude.{ℕ};

    ghost Value = { ℕ };

    ghost view = { λ h. h.count };
}

impl Helpers {
    /// Returns the number of helpers.
    pub fn count(&self) -> u32
        ensures { result ≡ self.now }
    {
        self.count
    }
}

impl IdleThreads {
    /// Makes a count for this many threads, none of which is idle.
    pub const fn new(threads: u32) -> IdleThreads
        ensures { result ≡ threads }
    {
        IdleThreads {
            threads,
            idle: AtomicU32::new(0),
            lent: AtomicU32::new(0),
        }
    }

    /// Makes a count for this many threads, all of them idle, such as workers that are about to start.
    pub const fn all_idle(threads: u32) -> IdleThreads
        ensures { result ≡ threads }
    {
        IdleThreads {
            threads,
            idle: AtomicU32::new(threads),
            lent: AtomicU32::new(0),
        }
    }

    /// Counts the calling thread as idle.
    pub fn begin(&self) {
        let more = |idle: u32| idle.checked_add(1);
        let _ = self
            .idle
            .fetch_update(Ordering::SeqCst, Ordering::SeqCst, more);
    }

    /// Counts the calling thread as busy again, even if it is lent to another thread. If no thread is counted as idle, nothing changes.
    pub fn end(&self) {
        lower(&self.idle, 1);
    }

    /// Takes up to `most` idle threads as helpers, but always fewer than the total number of threads.
    pub fn take(&self, most: u32) -> Helpers
        ensures most { result ≤ most }
        ensures others { result ≤ self.now - 1 }
    {
        let most = most.min(self.threads.saturating_sub(1));
        let idle = self.idle.load(Ordering::SeqCst);
        let more = |lent: u32| match free(idle, lent, most) {
            0 => None,
            taken => lent.checked_add(taken),
        };
        let count = match self
            .lent
            .fetch_update(Ordering::SeqCst, Ordering::SeqCst, more)
        {
            Ok(lent) => free(idle, lent, most),
            Err(_) => 0,
        };
        Helpers { count }
    }

    /// Gives back threads that `take` returned.
    pub fn give_back(&self, helpers: Helpers) {
        let Helpers { count } = helpers;
        lower(&self.lent, count);
    }
}

// Returns how many idle threads can be lent, up to `most`.
fn free(idle: u32, lent: u32, most: u32) -> u32
    ensures { result ≤ most }
{
    idle.saturating_sub(lent).min(most)
}

// Subtracts from a count, down to 0.
fn lower(count: &AtomicU32, by: u32) {
    let less = |n: u32| Some(n.saturating_sub(by));
    let _ = count.fetch_update(Ordering::SeqCst, Ordering::SeqCst, less);
}
