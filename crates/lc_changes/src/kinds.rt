//! The kinds of lines of a comparison's sheet.
//!
//! - `sums`: the value of a row, or of a line of sums such as the total, in each column
//! - `files`: the value of a file in each column

mod files;
mod sums;

pub use files::FileChanges;
pub use sums::{ChangedSums, ChangedTotals, Changes};
