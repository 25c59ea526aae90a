//! The kinds of lines of a report's sheet.
//!
//! - `rows`: the value of a row in each column
//! - `totals`: the value of a line of sums, such as the total, in each column
//! - `files`: the value of a file in each column
//! - `skipped`, `faults`: the value of a skipped entry, and of an error, in each column

mod faults;
mod files;
mod rows;
mod skipped;
mod totals;

pub use faults::Faults;
pub use files::Files;
pub use rows::Rows;
pub use skipped::Skipped;
pub use totals::{NamedSums, Totals};
