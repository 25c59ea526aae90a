//! The tests of the boards of `lc_board`, which hand directories to worker threads, and of the walk, its rows and its report.
#![tactic(auto)]

#[cfg(test)]
mod board;
#[cfg(test)]
mod walk;
