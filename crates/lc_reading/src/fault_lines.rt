//! Reading the errors of a report.

ghost use Rattle.std.specs.Prelude.{IfOk};
ghost use Rattle.lc_reading.specs.Lines.{IsFaultOf};
ghost use Rattle.lc_reading.specs.Members.{members_of};

use crate::member_name::MemberName;
use crate::read_fault::{NoReport, ReadFault};
use crate::values::{bytes_in, text_in};
use crate::words::fault_of;
use json::Value;
use lc_level::FaultLine;
use std::alloc::Global;

/// Reads an error: the path that could not be read, and the reason.
pub(crate) fn fault_line_of<'a>(
    alloc: Global,
    members: &[(&'a str, Value<'a>)],
) -> Result<FaultLine, ReadFault>
    ensures { IfOk result (IsFaultOf (members_of members.now)) }
{
    let text = text_in(members, MemberName::Word)?;
    let Some(word) = fault_of(text) else {
        return Err(ReadFault::NoReport(NoReport::Bad(MemberName::Word)));
    };
    let path = bytes_in(alloc, members, MemberName::Path, MemberName::PathBytes)?;
    Ok(FaultLine { path, word })
}
