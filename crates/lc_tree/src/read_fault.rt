//! Why a tree did not list a directory, or did not open a file.
use crate::ListingFault;
use std::alloc::{AllocError, AllocFailed};
use thiserror::Error;

/// Why a directory was not listed, or a file not opened. For a file the error is `Failed` or `Memory`.
#[derive(Clone, Copy, Debug, Drop, PartialEq, Eq, Error)]
pub enum ReadFault {
    /// The system reported an error, or the path names no directory to list, or no file to open.
    #[error("cannot be read")]
    Failed,
    /// A name in the directory is not UTF-8.
    #[error("a name is no text")]
    Unnamed,
    /// A name in the directory is empty, `.` or `..`, or has a slash or a NUL byte.
    #[error("a bad name")]
    BadName,
    /// Two entries of the directory have the same name.
    #[error("a name stands twice")]
    Twice,
    /// The directory has over `MAX_ENTRIES` entries.
    #[error("too many entries")]
    TooMany,
    /// An allocation failed.
    #[error("out of memory")]
    Memory,
}

impl From<ListingFault> for ReadFault {
    ghost use Rattle.std.specs.Prelude.{◌≡◌};
    ghost use Rattle.lc_tree.specs.TreeFaults.{fault_of_listing};

    ghost from_gives = { λ fault result. result ≡ fault_of_listing fault };

    fn from(fault: ListingFault) -> ReadFault {
        match fault {
            ListingFault::BadName => ReadFault::BadName,
            ListingFault::Twice => ReadFault::Twice,
            ListingFault::TooMany => ReadFault::TooMany,
            ListingFault::Memory => ReadFault::Memory,
        }
    }
}

impl From<AllocError> for ReadFault {
    ghost use Rattle.std.specs.Prelude.{◌≡◌};
    ghost use Rattle.lc_tree.specs.declared.read_fault.ReadFault.TheVariants.{Memory};

    ghost from_gives = { λ _ fault. fault ≡ Memory };

    fn from(_refused: AllocError) -> ReadFault {
        ReadFault::Memory
    }
}

impl<T: Drop> From<AllocFailed<T>> for ReadFault {
    ghost use Rattle.std.specs.Prelude.{◌≡◌};
    ghost use Rattle.lc_tree.specs.declared.read_fault.ReadFault.TheVariants.{Memory};

    ghost from_gives = { λ _ fault. fault ≡ Memory };

    fn from(_refused: AllocFailed<T>) -> ReadFault {
        ReadFault::Memory
    }
}
