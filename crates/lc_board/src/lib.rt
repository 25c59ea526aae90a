//! The board through which the worker threads of a walk share the directories of a tree. Each directory on the board has a number.
//!
//! The root directory has number 0. A directory is open while it waits for a worker. A worker claims an open directory and gets its job:
//! what the worker needs to visit the directory. Under this claim the worker may post child directories, that is, add them to the board,
//! each with its own job. The worker ends its claim, and so finishes the directory, by adding a row: what it found there. A board is over
//! when all directories on it are finished. Closing the board returns the row of each directory.
//!
//! - `shared`: the trait of boards that threads share
//! - `event`: what a worker did with a directory; `answers`: what calls on a board return
//! - `limits`: how many directories and workers a board can have
//! - `words`: the board that `lc` uses, which stores the state of each directory in one atomic word
//! - `locked`: a board under one lock, which tests and benchmarks compare with `words`; `plain`: the single-threaded board under that lock
//! - `laws`: theorems about the histories of a board; a history is the list of what all workers did
#![tactic(auto)]

mod answers;
mod event;
pub mod laws;
pub mod limits;
mod locked;
mod plain;
mod shared;
mod words;

pub use answers::{Claim, CloseFault, Closed, Ended, PostFault};
pub use event::{BareEvent, Event};
pub use locked::Locked;
pub use locked::pass::LockedPass;
pub use plain::Plain;
pub use shared::{Shared, Token};
pub use words::Words;
pub use words::pass::WordsPass;
