//! Reading the members of a report that are not lists.

ghost use Rattle.std.specs.Prelude.{◌≡◌, IfOk, MatchOption};
ghost use Rattle.lc_reading.specs.Members.{HasNumber, Lacks, members_of};
ghost use Rattle.lc_reading.specs.Reports.{IsNumbersOf};
ghost use Rattle.lc_reading.specs.declared.member_name.MemberName.TheVariants as name;

use crate::member_name::MemberName;
use crate::members::optional;
use crate::read_fault::NoReport;
use crate::sums::sums_in;
use crate::values::count_in;
use json::Value;
use lc_walk::Sums;

/// The sums and numbers of a report.
#[derive(Debug, Drop)]
pub(crate) struct Numbers {
    pub(crate) is_cut: bool,
    pub(crate) total: Sums,
    pub(crate) text: Sums,
    pub(crate) binary: Sums,
    pub(crate) directories: u64,
    pub(crate) entries: Option<u64>,
}

fn entries_in<'a>(members: &[(&'a str, Value<'a>)]) -> Result<Option<u64>, NoReport>
    ensures { IfOk result (λ entries. MatchOption entries (Lacks name.Entries (members_of members.now))
        (HasNumber name.Entries (members_of members.now))) }
{
    match optional(members, MemberName::Entries)? {
        Some(_) => Ok(Some(count_in(members, MemberName::Entries)?)),
        None => Ok(None),
    }
}

/// Reads the sums and numbers of a report from the members of its object.
pub(crate) fn numbers_of<'a>(members: &[(&'a str, Value<'a>)]) -> Result<Numbers, NoReport>
    ensures { IfOk result (IsNumbersOf (members_of members.now)) }
{
    let total = sums_in(members, MemberName::Total)?;
    let text = sums_in(members, MemberName::Text)?;
    let binary = sums_in(members, MemberName::Binary)?;
    let directories = count_in(members, MemberName::Directories)?;
    let entries = entries_in(members)?;
    let others = optional(members, MemberName::Others)?;
    Ok(Numbers {
        is_cut: others.is_some(),
        total,
        text,
        binary,
        directories,
        entries,
    })
}
