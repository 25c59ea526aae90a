//! The waits of a worker that finds no directory to claim.

use lc_tree::IdleThreads;
use std::sync::Wait;
use std::thread;
use std::thread::Parker;
use std::time::Duration;

/// How many times a worker yields to other threads before its first sleep: about 20 microseconds in all.
const YIELDS: u32 = 64;

/// The length of a worker's first sleep, in microseconds. Each later sleep is twice as long, up to `LONGEST_SLEEP`.
const FIRST_SLEEP: u64 = 10;

/// The length of a worker's longest sleep, in microseconds. A worker may see a posted directory, or the end of the walk, this late.
const LONGEST_SLEEP: u64 = 1000;

/// The waits of a worker that finds no directory to claim. No wait is shorter than the one before.
///
/// The worker first lets other threads run 64 times, about 20 microseconds in all. Then it sleeps for 10 microseconds, and each later sleep
/// is twice as long, up to 1 millisecond. So other threads have the processors while one of them reads a large file, and the worker never
/// sleeps much longer than it has waited already. After each directory that the worker claims, it begins again with the first wait.
///
/// The worker counts as idle from its start to its first claim, and from its first wait after a claim to the next claim.
#[derive(Drop)]
pub(crate) struct Backoff<'w> {
    threads: &'w IdleThreads,
    // Whether the worker counts as idle.
    counted: bool,
    // Nobody wakes the worker: the parker serves for its time limit.
    parker: Parker,
    yields: u32,
    sleep: u64,
}

impl<'w> Backoff<'w> {
    /// Makes the waits of a worker that `threads` already counts as idle.
    pub(crate) fn new(threads: &'w IdleThreads) -> Backoff<'w> {
        Backoff {
            threads,
            counted: true,
            parker: Parker::new(),
            yields: 0,
            sleep: FIRST_SLEEP,
        }
    }

    /// Waits once, by a yield or a sleep. The worker counts as idle until `reset`.
    pub(crate) fn wait<W: Wait>(&mut self, rt: &W) {
        if !self.counted {
            self.threads.begin();
            self.counted = true;
        }
        if self.yields < YIELDS {
            self.yields += 1;
            thread::yield_now();
            return;
        }
        self.parker
            .park_timeout(rt, Duration::from_micros(self.sleep));
        self.sleep = LONGEST_SLEEP.min(self.sleep.saturating_mul(2));
    }

    /// Makes the next wait the first one again, and counts the worker as busy. The worker calls this after each claim, and when it stops.
    pub(crate) fn reset(&mut self) {
        if self.counted {
            self.threads.end();
            self.counted = false;
        }
        self.yields = 0;
        self.sleep = FIRST_SLEEP;
    }
}
