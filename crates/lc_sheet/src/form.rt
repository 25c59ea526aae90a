//! How a section shows its lines: what rows are grouped by, in which column a line of sums has its word, such as `total`, and what shares
//! are computed from.

use crate::column::Number;
use crate::key::Key;
use crate::table_options::Columns;

/// What shares and bars are computed from: the total of one number, such as lines, and its largest value in a shown row.
#[derive(Debug, Clone, Copy, PartialEq, Eq)]
pub struct Shares {
    /// Which number the shares and bars are of, such as lines.
    pub number: Number,
    /// The sum of this number, such as of the lines, over all files. Each line shows its share of this sum.
    pub total: u128,
    /// The largest value of the number in a shown row. This row has the longest bar.
    pub largest: u128,
}

/// How a section shows its lines: what rows are grouped by, in which column a line of sums has its word, such as `total`, and what shares
/// are computed from.
#[derive(Debug, Clone, Copy, PartialEq, Eq)]
pub struct Form {
    /// The columns that rows are grouped by.
    pub by: Columns,
    /// The key in whose column a line of sums has its name, such as `total`.
    pub first: Key,
    /// What the shares and bars are computed from, if lines show shares.
    pub shares: Option<Shares>,
}
