//! The errors of opening a directory.

ghost use Rattle.std.specs.Prelude.{◌≡◌};
ghost use Rattle.lc_level.specs.RulePairs.{open_fault_by};

use crate::content_fault::ContentFault;
use crate::{FaultSite, FaultWord};

/// Why a directory contributes none of its entries to a walk.
#[derive(Clone, Copy, Debug, Drop, PartialEq, Eq)]
pub enum OpenFault {
    /// The listing or one of the rule files could not be read. The `FaultSite` says which of these. The `FaultWord` is the reason, as a
    /// word in reports.
    Faulted(FaultSite, FaultWord),
    /// An allocation failed.
    Memory,
    /// The path of an entry has over 4,096 bytes, or the path of a directory has over 256 segments.
    TooDeep,
}

impl ContentFault {
    /// Converts the error of a rule file into the error of the directory that is opened. `site` says which rule file could not be read.
    pub fn at(self, site: FaultSite) -> OpenFault
        ensures { result ≡ open_fault_by site self }
    {
        match self {
            ContentFault::Fault(word) => OpenFault::Faulted(site, word),
            ContentFault::Memory => OpenFault::Memory,
        }
    }
}
