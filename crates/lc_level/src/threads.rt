//! Counting the files of a directory with several threads side by side.
//!
//! - `in_parts`: counting many files
//! - `after_large`: counting the files that follow a large file
//! - `spare_threads`: the threads that may help

pub(crate) mod after_large;
pub(crate) mod in_parts;
pub(crate) mod spare_threads;
