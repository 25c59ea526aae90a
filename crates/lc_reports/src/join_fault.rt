//! Why several reports can't be joined.

use std::alloc::AllocError;
use thiserror::Error;

/// Why several reports can't be joined.
#[derive(Debug, Clone, Copy, PartialEq, Eq, Error)]
pub enum JoinFault {
    /// Each sum fits its type, but an allocation for the lists of the joined report failed.
    #[error("out of memory")]
    Memory,
    /// A sum does not fit its type. There are at least 2^64 files, directories or entries, or 2^128 lines, blank lines or bytes.
    #[error("sums too large")]
    TooLarge,
}

impl From<AllocError> for JoinFault {
    ghost use Rattle.std.specs.Prelude.{◌≡◌};
    ghost use Rattle.lc_reports.specs.declared.join_fault.JoinFault.TheVariants.{Memory};

    ghost from_gives = { λ refused fault. fault ≡ Memory };

    fn from(_: AllocError) -> JoinFault {
        JoinFault::Memory
    }
}
