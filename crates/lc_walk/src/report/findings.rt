//! What a walk found besides the sums over its files.

use crate::report::{FaultLine, FileLine, SkippedLine};

/// What a walk found besides the sums over its files. The lists may be in any order.
#[derive(Drop)]
pub struct Findings {
    /// The number of directories whose listings and rule files were read.
    pub directories: u64,
    /// The number of entries of the listed directories, skipped entries included. With `--only`, entries that the paths of `--only` do not
    /// select are not counted.
    pub entries: u64,
    /// The counted files, if the report lists them.
    pub files: Vec<FileLine>,
    /// The errors: a line for each file that could not be counted, each directory that could not be read, and each requested path that is
    /// absent.
    pub faults: Vec<FaultLine>,
    /// The skipped entries, if the report lists them.
    pub skipped: Vec<SkippedLine>,
}
