//! The tests of counting, of trees, of one directory with its rules, and of checks and explanations of paths.
//!
//! They show what no contract says: that calls succeed if there is enough memory, and how calls end if a reader, a writer or a tree fails.
//! The program `lc_cases` shows what the calls print.
#![tactic(auto)]

#[cfg(test)]
mod census;
#[cfg(test)]
mod level;
#[cfg(test)]
mod paths;
#[cfg(test)]
mod tree;
