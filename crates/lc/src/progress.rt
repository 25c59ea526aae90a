//! The progress line that a long count or comparison shows on a terminal.

use lc_formats::push_number;
use std::alloc::{AllocError, Global};
use std::io::{Stderr, Write};
use std::sync::atomic::{AtomicBool, AtomicU64, Ordering};
use std::time::Clock;

/// The time that the program runs before it shows its progress line, in milliseconds.
const DELAY: u64 = 1000;

/// The least time between two updates of the progress line, in milliseconds.
const PERIOD: u64 = 250;

/// Numbers of directories and files that were opened.
#[derive(Clone, Copy, Drop)]
pub(crate) struct Opened {
    directories: u64,
    files: u64,
}

impl Opened {
    /// Returns the numbers of what is opened so far, or zeros if nothing is counted.
    pub(crate) fn so_far(progress: Option<&Progress>) -> Opened {
        match progress {
            Some(progress) => Opened {
                directories: progress.directories.load(Ordering::SeqCst),
                files: progress.files.load(Ordering::SeqCst),
            },
            None => Opened {
                directories: 0,
                files: 0,
            },
        }
    }
}

/// The numbers of directories and files that the program has opened, and when they are next shown on a terminal. The program's answer does
/// not depend on them.
#[derive(Drop)]
pub(crate) struct Progress {
    alloc: Global,
    terminal: Stderr,
    directories: AtomicU64,
    files: AtomicU64,
    /// The time of the monotonic clock, in milliseconds, at which the next update of the progress line is due.
    due: AtomicU64,
    is_shown: AtomicBool,
}

/// Returns the time of the monotonic clock in milliseconds, if the clock can be read.
fn milliseconds(clock: &impl Clock) -> Option<u64> {
    let time = clock.monotonic().ok()?;
    u64::try_from(time.as_millis()).ok()
}

/// Appends a number and a word for what is counted: `one` if the number is 1, and otherwise `many`.
fn push_count(
    text: &mut String,
    count: &AtomicU64,
    one: &str,
    many: &str,
) -> Result<(), AllocError> {
    let count = count.load(Ordering::SeqCst);
    push_number(text, u128::from(count))?;
    text.push_str(if count == 1 { one } else { many })
}

impl Progress {
    /// Makes the progress of a program that has opened nothing yet, or `None` if the clock can't be read.
    pub(crate) fn new(clock: &impl Clock, alloc: Global, terminal: Stderr) -> Option<Progress> {
        let now = milliseconds(clock)?;
        Some(Progress {
            alloc,
            terminal,
            directories: AtomicU64::new(0),
            files: AtomicU64::new(0),
            due: AtomicU64::new(now.saturating_add(DELAY)),
            is_shown: AtomicBool::new(false),
        })
    }

    /// Goes back to these numbers. A tree's walk begins with them, also when the tree is walked again.
    pub(crate) fn restart(&self, before: Opened) {
        self.directories.store(before.directories, Ordering::SeqCst);
        self.files.store(before.files, Ordering::SeqCst);
    }

    /// Counts a directory that is listed.
    pub(crate) fn add_directory(&self, clock: &impl Clock) {
        self.directories.fetch_add(1, Ordering::SeqCst);
        self.show_if_due(clock);
    }

    /// Counts a file that is opened.
    pub(crate) fn add_file(&self, clock: &impl Clock) {
        self.files.fetch_add(1, Ordering::SeqCst);
        self.show_if_due(clock);
    }

    /// Shows the progress line if an update is due. If several threads find it due, one of them shows the line.
    fn show_if_due(&self, clock: &impl Clock) {
        let due = self.due.load(Ordering::SeqCst);
        let Some(now) = milliseconds(clock) else {
            return;
        };
        if now < due {
            return;
        }
        let next = now.saturating_add(PERIOD);
        let order = Ordering::SeqCst;
        if self.due.compare_exchange(due, next, order, order).is_ok() {
            // The answer does not depend on the line, so a failed write is ignored.
            let _ = self.show();
        }
    }

    /// Writes the progress line in place of its last version.
    fn show(&self) -> Result<(), AllocError> {
        let mut line = String::from_str(self.alloc, "\r\x1B[Klc: ")?;
        push_count(&mut line, &self.files, " file", " files")?;
        line.push_str(" in ")?;
        push_count(&mut line, &self.directories, " directory", " directories")?;
        self.is_shown.store(true, Ordering::SeqCst);
        let _ = (&self.terminal).write_all(line.as_bytes());
        Ok(())
    }

    /// Erases the progress line, if it is shown.
    pub(crate) fn erase(&self) {
        if self.is_shown.swap(false, Ordering::SeqCst) {
            let _ = (&self.terminal).write_all(b"\r\x1B[K");
        }
    }
}
