//! Why a file was not read.

use crate::FaultWord;

/// Why a file was not read or not counted.
#[derive(Clone, Copy, Debug, Drop, PartialEq, Eq)]
pub(crate) enum ContentFault {
    /// The file could not be read or counted. The report names the reason by this word.
    Fault(FaultWord),
    /// An allocation failed.
    Memory,
}
