//! Reading the listed files of a report.

ghost use Rattle.std.specs.Prelude.{IfOk};
ghost use Rattle.lc_reading.specs.Lines.{IsCountOf, IsFileOf};
ghost use Rattle.lc_reading.specs.Members.{members_of};

use crate::lines::{entry_path_in, eol_in, text_state_in};
use crate::member_name::MemberName;
use crate::read_fault::{NoReport, ReadFault};
use crate::states::states_in;
use crate::values::count_in;
use json::Value;
use lc_census::Count;
use lc_level::{FileAttributes, FileLine};
use lc_sheet::AttributeColumn;
use std::alloc::Global;
use std::sync::Arc;

fn count_of<'a>(members: &[(&'a str, Value<'a>)]) -> Result<Count, NoReport>
    ensures { IfOk result (IsCountOf (members_of members.now)) }
{
    let eol = eol_in(members)?;
    let lines = count_in(members, MemberName::Lines)?;
    let blank = count_in(members, MemberName::Blank)?;
    let bytes = count_in(members, MemberName::Bytes)?;
    Ok(Count {
        lines,
        blank,
        bytes,
        eol,
    })
}

/// Reads a listed file, with the states of attributes, from the members of its JSON object.
pub(crate) fn file_of<'a>(
    alloc: Global,
    members: &[(&'a str, Value<'a>)],
    attributes: &[AttributeColumn],
) -> Result<FileLine, ReadFault>
    ensures { IfOk result (IsFileOf attributes.now (members_of members.now)) }
{
    let path = entry_path_in(alloc, members)?;
    let text = text_state_in(members)?;
    let count = count_of(members)?;
    let asked = states_in(alloc, members, attributes)?;
    Ok(FileLine {
        path,
        attributes: Arc::new(alloc, FileAttributes { text, asked })?,
        count,
    })
}
