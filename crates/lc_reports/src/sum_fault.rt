//! Why reports are not summed.

ghost use Rattle.std.specs.Prelude.{◌≡◌};
ghost use Rattle.lc_reports.specs.Sums.{fault_of_join};

use crate::join_fault::JoinFault;
use lc_sheet::Key;
use std::alloc::AllocError;

/// Why reports are not summed. The `&str` in a variant is the name of the first report that has the error.
#[derive(Debug, Drop)]
pub enum SumFault<'n> {
    /// An allocation failed. Memory is allocated only after each report was found to have the needed columns and lists.
    Memory,
    /// The rows of a report lack a needed column. The `Key` is that of the first column, in the order `Ext`, `Text`, `Eol`, that is needed
    /// and that the rows lack.
    NoColumn(&'n str, Key),
    /// No column is in every report. This is an error only if no columns were requested.
    NoSharedColumn,
    /// A report lists no files.
    NoFiles(&'n str),
    /// A report lists no skipped entries.
    NoSkipped(&'n str),
    /// Two listed files have this path. If several paths are listed twice, this path is the first of them in the order of bytes.
    SamePath(Vec<u8>),
    /// A sum does not fit its type. There are at least 2^64 files, directories or entries, or 2^128 lines, blank lines or bytes.
    TooLarge,
}

impl<'n> From<AllocError> for SumFault<'n> {
    ghost use Rattle.std.specs.Prelude.{◌≡◌};
    ghost use Rattle.lc_reports.specs.declared.sum_fault.SumFault.TheVariants.{Memory};

    ghost from_gives = { λ refused fault. fault ≡ Memory };

    fn from(_: AllocError) -> SumFault<'n> {
        SumFault::Memory
    }
}

/// Returns the error for reports that can't be joined.
pub(crate) fn fault_of_join<'n>(fault: JoinFault) -> SumFault<'n>
    ensures { result ≡ fault_of_join fault }
{
    match fault {
        JoinFault::Memory => SumFault::Memory,
        JoinFault::TooLarge => SumFault::TooLarge,
    }
}
