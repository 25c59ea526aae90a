//! Tests of checks and explanations of paths for which an input, a writer or a tree fails, and of the directories that an explanation
//! keeps open.

mod blocks;
mod faults;
mod forms;
mod keeping;
mod streams;
