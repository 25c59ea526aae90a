//! Why a worker did not finish the work on a directory.

/// Why a worker did not finish the work on a directory.
#[derive(Clone, Copy, Debug, Drop, PartialEq, Eq)]
pub enum BrokenCause {
    /// An allocation failed.
    Memory,
    /// A child directory got no number on the board, because all numbers were used.
    TooManyDirs,
    /// An entry's path has more than 4,096 bytes, or a directory's path more than 256 segments.
    TooDeep,
}
