//! Why no report is read.

ghost use Rattle.std.specs.Prelude.{◌≡◌};
ghost use Rattle.lc_reading.specs.declared.read_fault.ReadFault.TheVariants.{Memory, NoReport};

use crate::member_name::MemberName;
use std::alloc::{AllocError, AllocFailed};
use std::fmt;
use thiserror::Error;

/// Why no reports are read from a text. The error's message is printed after the name of the input.
#[derive(Clone, Copy, Debug, Drop, PartialEq, Eq, Error)]
pub enum ReadFault {
    /// An allocation failed.
    #[error("out of memory")]
    Memory,
    /// The text is not a report.
    #[error("is no report: {0}")]
    NoReport(NoReport),
    /// The report lacks rows or files that its totals count, as with `--top`.
    #[error("was cut by --top")]
    CutByTop,
    /// The sums of this part of the report differ from the report's total, or the rows of binary files differ from `binary`.
    #[error("is no report: its {0} do not add up to its total")]
    DoNotAddUp(Part),
    /// The report does not list its files, or a file lacks the state of an attribute that was asked for. The number is the place of the
    /// first such attribute among those that were asked for.
    #[error("has no column of the attribute at {0}")]
    NoAttribute(u8),
}

/// Why a text is not a report.
#[derive(Clone, Copy, Debug, Drop, PartialEq, Eq, Error)]
pub enum NoReport {
    /// The text is empty, or has only white space.
    #[error("it is empty")]
    Empty,
    /// The text has no JSON object where one is expected. The number is the index of a byte near this place, counted from 0.
    #[error("no JSON object at byte {0}")]
    NoObject(usize),
    /// An object lacks the member with this name.
    #[error("no member {0}")]
    Missing(MemberName),
    /// An object has two members with this name, or two forms of one member, such as `path` and `path_bytes`.
    #[error("{0} twice")]
    Twice(MemberName),
    /// No report can have the value of this member.
    #[error("bad {0}")]
    Bad(MemberName),
    /// A file has two members with the state of the attribute at this place among those that were asked for.
    #[error("attribute at {0} twice")]
    AttributeTwice(u8),
    /// A member of a file is no state of the attribute at this place among those that were asked for.
    #[error("bad attribute at {0}")]
    BadAttribute(u8),
}

/// A part of a report whose sums must add up to the report's total.
#[derive(Clone, Copy, Debug, Drop, PartialEq, Eq, Error)]
pub enum Part {
    /// The rows.
    #[error("rows")]
    Rows,
    /// The listed files.
    #[error("files")]
    Files,
    /// The sums over text and over binary files.
    #[error("text and binary")]
    TextAndBinary,
}

impl From<AllocError> for ReadFault {
    ghost from_gives = { λ _ fault. fault ≡ Memory };

    fn from(_refused: AllocError) -> ReadFault {
        ReadFault::Memory
    }
}

impl From<NoReport> for ReadFault {
    ghost from_gives = { λ why fault. fault ≡ NoReport why };

    fn from(why: NoReport) -> ReadFault {
        ReadFault::NoReport(why)
    }
}

impl fmt::Display for MemberName {
    ghost use Rattle.std.specs.Prelude.{Some};
    ghost use Rattle.lc_reading.specs.MemberNames.{member_name};

    ghost output = { λ name. Some (member_name name) };

    fn fmt<W: fmt::Write>(&self, f: &mut fmt::Formatter<W>) -> fmt::Result {
        f.write_str(self.as_str())
    }
}

impl<T: Drop> From<AllocFailed<T>> for ReadFault {
    ghost from_gives = { λ _ fault. fault ≡ Memory };

    fn from(_refused: AllocFailed<T>) -> ReadFault {
        ReadFault::Memory
    }
}
