//! The options of a comparison.

use lc_sheet::{Columns, Format, Number};

/// The options of a comparison of two reports.
#[derive(Debug, Clone, Copy, PartialEq, Eq)]
pub struct ChangeOptions {
    /// The format in which the comparison is written.
    pub format: Format,
    /// The columns that the rows of the comparison are grouped by.
    pub by: Columns,
    /// The number that decides the order of rows and files. The row or file in which this number changed most, whether up or down, comes
    /// first. Where it changed equally, or if this is `None`, rows are in the order of their keys, and files in the order of their paths.
    pub sort: Option<Number>,
    /// The largest number of rows, and of files, that the comparison shows. If this is `None`, the comparison shows all of them.
    pub top: Option<u32>,
    /// Whether the comparison lists the files that differ. If this is false, the reports may still list their files, because rows by
    /// directories or attributes are sums over these files.
    pub files: bool,
    /// Whether the comparison also shows the rows in which no number changed.
    pub all: bool,
}
