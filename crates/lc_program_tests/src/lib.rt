//! The tests of the program, over directories and files in memory.
//!
//! - `runs`: runs of the program with arguments
//! - `tables`: walks of trees, and the tables of their reports
//! - `sums`: sums that do not fit their types
#![tactic(auto)]

#[cfg(test)]
mod runs;
#[cfg(test)]
mod sums;
#[cfg(test)]
mod tables;
