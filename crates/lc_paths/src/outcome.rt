//! Whether an answer needed something that could not be read.

/// Whether a directory or a file that an answer needed could not be read.
#[derive(Debug, Clone, Copy, PartialEq, Eq)]
pub enum Outcome {
    /// Each directory and file that the answer needed could be read.
    Clean,
    /// Some directory or file could not be read.
    SomeFaults,
}
